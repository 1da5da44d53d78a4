// A terminal where it stands in a text.
use crate::terminal::Terminal;

#[derive(Clone, Copy)]
pub(crate) struct Token<'a> {
    pub(crate) what: Terminal<'a>,
    pub(crate) at: usize,
    pub(crate) line: u32,
}
