// What is wrong with a job.

ghost use Rattle.std.specs.Prelude.{◌≡◌, option_map};
ghost use Rattle.snesl_look.specs.findings.Objects.{file_named};
ghost use Rattle.snesl_look.specs.findings.Parts.{hint_of, sentence_of};
ghost use Rattle.snesl_look.specs.findings.Places.{end_of, place_or_front};

use crate::findings::objects::Finding;
use crate::findings::parts::{hint_of, sentence_of};
use crate::findings::places::{end_of, place_or_front};
use snesl_data::Refusal;

/// What is wrong with a job that is refused: the parts of the message, and the place of the refusal in the whole job, up to the end
/// of the word, the sign or the character that stands there. Where it names no offset, it is the front of the job, and nothing is
/// marked.
pub fn finding_of<'a>(
    file: Option<&'a str>,
    refusal: Refusal,
    program: &[u8],
    input: &[u8],
    message: &'a [u8],
) -> Finding<'a>
    ensures file { file_named result ≡ option_map (λ name. name.now) file.entry }
    ensures line { result.line ≡ (place_or_front refusal program.now input.now).line }
    ensures column { result.column ≡ (place_or_front refusal program.now input.now).column }
    ensures end { result.end ≡ end_of refusal program.now input.now }
    ensures sentence { result.sentence.now ≡ sentence_of message.now }
    ensures hint { option_map (λ hint. hint.now) result.hint ≡ hint_of message.now }
{
    let place = place_or_front(refusal, program, input);
    Finding {
        file,
        line: place.line,
        column: place.column,
        end: end_of(refusal, program, input),
        sentence: sentence_of(message),
        hint: hint_of(message),
    }
}
