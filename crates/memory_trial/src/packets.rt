//! Calls on packets, recordings and reports.
use crate::told::Told;
use crate::worked::REPORT;
use bench_report::{ReportFault, print_report, read_report};
use ch11_builder::{Builder, BuilderError};
use ch11_reader::{Index, ReadError};
use std::alloc::Global;
use test_values::FOREIGN;

/// `Builder::make`.
pub(crate) fn builder(alloc: Global) -> Told {
    match Builder::make(alloc, 1, 6, 4096) {
        Ok(_) => Told::Well,
        Err(BuilderError::Memory) => Told::Refused,
        Err(BuilderError::Limit) => Told::Wrong,
    }
}

/// `Index::build`.
pub(crate) fn index(alloc: Global) -> Told {
    match Index::build(alloc, &FOREIGN) {
        Ok(index) => Told::well(index.total() == 1),
        Err(ReadError::Memory) => Told::Refused,
        Err(ReadError::Refused(_)) => Told::Wrong,
    }
}

/// A file whose first packet is damaged, so that a skip stands before the second.
pub(crate) fn skipping_index(alloc: Global) -> Told {
    let mut file = FOREIGN;
    file[1] = 0;
    match Index::build_skipping(alloc, &file) {
        Ok(index) => Told::well(index.skipped().len() == 1),
        Err(ReadError::Memory) => Told::Refused,
        Err(ReadError::Refused(_)) => Told::Wrong,
    }
}

/// `print_report`.
pub(crate) fn report_printed(alloc: Global) -> Told {
    match read_report(alloc, REPORT.as_bytes()) {
        Ok(report) => Told::of(print_report(alloc, &report).is_ok()),
        Err(_) => Told::Early,
    }
}

/// `read_report`.
pub(crate) fn report_read(alloc: Global) -> Told {
    match read_report(alloc, REPORT.as_bytes()) {
        Ok(_) => Told::Well,
        Err(error) => match error.fault {
            ReportFault::Memory => Told::Refused,
            _ => Told::Wrong,
        },
    }
}
