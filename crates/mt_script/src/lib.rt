//! The script language: bytes in and out, what a line says, and the texts of answers.
#![tactic(auto)]

mod commands;
mod cut;
mod fault;
mod lines;
mod numbers;
mod ops;
mod output;
mod qualified;
mod reading;
mod shown;
mod texts;
mod words;
mod workflows;

pub use cut::first_line;
pub use fault::ScriptFault;
pub use lines::{
    AdvanceWords, CreateWords, Line, LineRefusal, MAX_LINE_LENGTH, RowAsked, WorkflowAsked, read,
};
pub use ops::{OpText, ValueText, ValueVerb};
pub use output::{
    LONGEST_LINE, ROOM, Waiting, flush, make_room, put_document, put_line, write_all, write_line,
};
pub use qualified::QualifiedName;
pub use reading::{MAX_READS, MAX_SCRIPT_LENGTH, read_script};
pub use shown::LineText;
pub use texts::{
    put_advanced, put_answer, put_driven, put_fault, put_look_up, put_reason, put_refusal,
    put_refused, put_row, put_shown, put_written,
};
