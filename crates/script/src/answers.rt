// What the tool prints for a refusal.
use kinds::identifier::Identifier;
use patch::refusals::{Cause, Refusal};
use texts::text::Text;

// Room for `no`, a number, a place, the longest name and byte 10.
pub type AnswerText = Text<64>;

pub(crate) fn refused_text<I: Identifier>(refusal: &Refusal<I>) -> AnswerText {
    let mut text = Text::new();
    text.append(b"no ");
    text.append_number(refusal.reason.number());
    text.push(b' ');
    text.append_number(refusal.place);
    text.push(b' ');
    match &refusal.cause {
        Cause::Nothing => text.push(b'-'),
        Cause::Patch(patch) => text.append(patch.write().as_slice()),
        Cause::Line(name) => text.append(name.write().as_slice()),
    }
    text.push(b'\n');
    text
}
