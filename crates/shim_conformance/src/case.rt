// A case: the words and files of its calls, and what each call has to answer.
use crate::words::CallLine;
use shim_tests_layers::Setup;

/// Each call of each line has to answer with this status and this text.
#[derive(Drop)]
pub struct Case {
    pub title: String,
    pub lines: Vec<CallLine>,
    pub setup: Setup,
    pub status: u8,
    pub text: Vec<u8>,
}
