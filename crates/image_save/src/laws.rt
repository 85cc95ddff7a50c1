// The law of a saved file, for whoever reads one. It holds of the definitions, so that this function does nothing.
ghost use Rattle.image_save.specs.Denotes.{SavedDenotes, SavedDenotesGraph};

/// No cause of refusal but `large` applies to a saved file, and it stands for the heap's graph without handles and mourners, up to names. So it denotes each
/// graph that the heap stands for.
pub fn saved_denotes()
    ensures heap { SavedDenotes }
    ensures graph { SavedDenotesGraph }
{}
