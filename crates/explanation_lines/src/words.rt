// Why a trace is at fault.
ghost use Rattle.std.specs.Prelude.{◌≡◌};
ghost use Rattle.explanation_lines.specs.Words.{word_of};

use crate::Word;

impl Word {
    #[tactic(auto, unfolding(crate::specs::Words::word_of, types::specs::Letters::letters))]
    pub fn as_str(self) -> &'static str
        ensures { result.now ≡ word_of self }
    {
        match self {
            Word::NoTag => "no tag of a trace",
            Word::NotFirst => "the first field is no start",
            Word::SecondStart => "a second start",
            Word::NoStart => "not one part, 0 or 1, and one maximum",
            Word::NoMessage => "not one whole message",
            Word::NoArrival => "not one alias, group and object",
            Word::EndsInside => "the trace ends inside this field",
            Word::NoBytes => "no bytes",
        }
    }
}
