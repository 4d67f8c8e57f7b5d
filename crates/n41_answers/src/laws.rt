ghost use Rattle.n41_answers.specs.Laws.{PlacesAnswer, AnswersArePlaced, AnswersOnce, AnswerIsPlaced, ListsStep, BegunInOrder, EarlierAreAnswered, IdleAreAnswered};

/// A law of journals of a client that keeps its rules: the place of the answer to a caller's command n is the n-th of the places of the
/// caller's answers, and each command is answered once.
pub fn answers_have_their_places()
    ensures places { PlacesAnswer }
    ensures no_other { AnswersArePlaced }
    ensures once { AnswersOnce }
{}

/// A law: the answer that is printed for a command is the one that stands in the journal.
pub fn the_printed_answer_is_placed()
    ensures { AnswerIsPlaced }
{}

/// A law of the lists of places, for any journal: an answer adds its place to the list of its caller, and no other event changes the
/// lists.
pub fn the_lists_step()
    ensures { ListsStep }
{}

/// A law: the commands of a caller are numbered from 1 in the order in which they began, and each is answered before the next one begins.
pub fn commands_are_answered_in_order()
    ensures in_order { BegunInOrder }
    ensures earlier { EarlierAreAnswered }
    ensures idle { IdleAreAnswered }
{}
