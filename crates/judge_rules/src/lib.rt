//! Rules by which a recording is judged: what they are, and the texts that spell them; and the parts of a line that
//! dictionaries of signals share with rules.
//!
//! It may know: words, mode codes, numbers and words of a text. Its tests: `command_tests`. Its wrong bodies:
//! `edits/`.
#![tactic(auto)]

mod channels;
mod checks;
mod fault;
mod kinds;
mod line_rules;
mod reading;
mod rules;
mod selecting;
mod selectors;
mod spans;
mod standard;
mod times;
mod values;
mod words;

pub use channels::{read_bus, read_channel};
pub use checks::read_check;
pub use fault::{RuleError, RuleFault, both};
pub use line_rules::{is_passed_over, read_line, rule_of};
pub use reading::read_rules;
pub use rules::{Bounds, Check, Datum, Kind, Rule, Selector, Span, WordRange};
pub use selectors::{read_selector, selector_of};
pub use spans::read_span;
pub use standard::clean_is_one_rule;
pub use times::{parts_at_point, read_time};
pub use values::read_number;
pub use words::ended;
