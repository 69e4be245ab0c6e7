//! What the definitions of a session's script give, on closed terms: each record of examples as the clause of a function that does
//! nothing.
ghost use Rattle.line_examples.specs.Lines.{AreTold as LinesAreTold};
ghost use Rattle.line_examples.specs.Operations.{AreTold as OperationsAreTold};
ghost use Rattle.line_examples.specs.Questions.{AreTold as QuestionsAreTold};
ghost use Rattle.line_examples.specs.Scripts.{AreTold as ScriptsAreTold};

/// Lines with blanks and comments, the words that stand alone, `open`, and lines that are none of a script.
pub fn lines_are_told()
    ensures { LinesAreTold }
{}

/// Lines that ask, with the paths and the times that they ask for, and those whose path or time is none.
pub fn questions_are_told()
    ensures { QuestionsAreTold }
{}

/// Lines that change a layer or a load rule, with the operations that they are, and those that are no operation.
pub fn operations_are_told()
    ensures { OperationsAreTold }
{}

/// Scripts of a few lines with the steps that they ask for, each with the number of its line, and the first line that is refused.
pub fn scripts_are_told()
    ensures { ScriptsAreTold }
{}
