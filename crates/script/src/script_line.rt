// What a line of a script says. The byte 10 at its end is not part of it.
#[derive(Clone, Copy)]
pub enum Saying<'t> {
    Apply(&'t [u8]),
    Unapply(&'t [u8]),
    Page,
    End,
}

// A line that has its ending.
#[derive(Clone, Copy)]
pub struct ScriptLine<'t> {
    pub number: usize,
    // Nothing where the line is none of the script's own.
    pub saying: Option<Saying<'t>>,
    // The script from this line on, and behind it.
    pub from: &'t [u8],
    pub behind: &'t [u8],
}

impl<'t> Saying<'t> {
    pub(crate) fn read(line: &'t [u8]) -> Option<Saying<'t>> {
        if let Some(id) = line.strip_prefix(b"apply ") {
            return Some(Saying::Apply(id));
        }
        if let Some(id) = line.strip_prefix(b"unapply ") {
            return Some(Saying::Unapply(id));
        }
        match line {
            b"page" => Some(Saying::Page),
            b"end" => Some(Saying::End),
            _ => None,
        }
    }
}
