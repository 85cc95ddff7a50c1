// Tests of whole scripts: what is answered of an image, line by line, and which files a run leaves.
//
// They go through the public calls of `replay` alone (`run`, `Session`, `Status`, `LineFault`), over files that are kept in memory. The base image and its
// answers are worked out by hand from the rules of the script language.
mod becoming;
mod collected;
mod collecting;
mod compacting;
mod ephemerons;
mod fixtures;
mod handles;
mod images;
mod kept;
mod lines;
mod making;
mod mourners;
mod moving;
mod options;
mod running;
mod saving;
mod sessions;
mod slots;
mod units;
mod values;
mod weak;
