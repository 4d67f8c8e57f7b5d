ghost use Rattle.n41_report.specs.Laws.{IsTextOfRun};

/// A law: printed with the first breach of its journal, the text is the one that a run has.
pub fn the_text_is_that_of_the_run()
    ensures { IsTextOfRun }
{}
