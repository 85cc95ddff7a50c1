// Laws of lines and answers.
ghost use Rattle.std.specs.Prelude.{◌≡◌, ℕ, List, map, false};
ghost use Rattle.std.specs.List.{flat_map};
ghost use Rattle.spur_graph.specs.Bytes.{Text};
ghost use Rattle.spur_graph.specs.declared.answer.Answer.{Answer};
ghost use Rattle.spur_graph.specs.Form.{Form};
ghost use Rattle.spur_graph.specs.Words.{spaced, words_of};
ghost use Rattle.spur_graph.specs.Rows.{IsLine};
ghost use Rattle.spur_graph.specs.Lines.{has_line_feed, lines_of};
ghost use Rattle.spur_graph.specs.Text.{answer_line, answer_text};

/// The words of a line, with one space between them, are the line.
#[tactic(auto, using(crate::proofs::Cuts::spaced_words))]
pub fn words_are_line()
    ensures { (line : Text) → spaced (words_of line) ≡ line }
{}

/// No line has two readings.
#[tactic(auto, using(crate::proofs::Marks::one_mutator, crate::proofs::Marks::one_form))]
pub fn one_reading()
    ensures mutator { (words : List Text) (j k : ℕ) (f g : Form) → IsLine words j f → IsLine words k g → j ≡ k }
    ensures form { (words : List Text) (j k : ℕ) (f g : Form) → IsLine words j f → IsLine words k g → f ≡ g }
{}

/// The text of an answer has no line feed, so its line has one, at its end: the lines of answers that are written one
/// behind another are the answers' texts.
#[tactic(auto, using(crate::proofs::Feeds::no_feed, crate::proofs::Feeds::lines_apart))]
pub fn answers_are_lines()
    ensures no_line_feed { (answer : Answer) → has_line_feed (answer_text answer) ≡ false }
    ensures apart { (answers : List Answer) → lines_of (flat_map answer_line answers) ≡ map answer_text answers }
{}
