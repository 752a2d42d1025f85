//! The pages that a server has for whoever watches it: which one a request of HTTP/1.1 names, and the
//! answer.
#![tactic(auto)]

mod answer;
mod counts;
mod metrics;
mod request;
mod traffic;

pub use answer::page_answer;
pub use counts::{Counts, EntryCounts, RefusalCounts, SentCounts};
pub use metrics::metrics_text;
pub use request::{Page, page_asked};
