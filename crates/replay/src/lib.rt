//! The top call: an image is loaded, and a script of heap commands is answered line by line.
//!
//! A [`Session`] is the heap of an image, and the name of the script that is run on it. Its lines are steps of the object graph machine,
//! from the graph of the image up to names: [`run`] reads the script in pieces, answers each line as soon as it has read its line feed,
//! and puts each answer before it reads on; that it does so in this order is tested, and no clause. A line may save the heap as an image
//! file. A save under the script's own name is refused, so that the script is the same while it is read. Whoever starts the program rests
//! on the clauses of [`run`]: where store and sink tell their bytes, they say by the status which bytes were put, which files there are,
//! and in which state a session is that is left.
#![tactic(auto)]

mod changing;
mod collecting;
mod commands;
mod halts;
mod handles;
mod lines;
mod making;
mod options;
mod runs;
mod saving;
mod session;
mod settling;
mod slots;
mod values;

pub use runs::{Status, run};
pub use session::{LineFault, Session};
