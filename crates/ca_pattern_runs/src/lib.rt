//! Runs over a pattern file: what it holds, the file in another format, or a picture of it.
#![tactic(auto)]

mod caption;
mod drawing;
pub mod drawing_laws;
mod form;
mod form_run;
mod pattern_run;
mod summary;

pub use ca_report::{DrawRequest, Form, TextForm};
pub use form::{Evolution, FormText};
pub use form_run::{form_text, write_form};
pub use pattern_run::{convert_run, show_run};
