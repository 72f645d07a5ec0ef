//! The errors of calls.

use bus_dma::DmaError;
use busdma_base::{Errno, Report, ReportName};
use std::alloc::{AllocError, AllocFailed};
use std::test::Fail;

/// Each error, with its text.
const TEXTS: [(DmaError, &str); 5] = [
    (DmaError::OutOfMemory, "memory ran out"),
    (DmaError::Errno(Errno::ENOMEM), "refused with ENOMEM"),
    (
        DmaError::Report(Report {
            name: ReportName::Unmapped,
            at: 3,
        }),
        "Unmapped at 3",
    ),
    (DmaError::NotReady, "the driver still has work to do"),
    (DmaError::TooLarge, "the load is too large"),
];

#[test]
fn errors_have_texts(rt: HostRuntime) -> Result<(), Fail> {
    for (error, text) in TEXTS {
        assert_eq!(rt; format!(in rt.alloc(); "{error}")?.as_str(), text);
    }
    Ok(())
}

#[test]
fn failed_allocations_are_errors(rt: HostRuntime) {
    assert_eq!(rt; DmaError::from(AllocError), DmaError::OutOfMemory);
    assert_eq!(rt;
        DmaError::from(AllocFailed { value: 7u8 }),
        DmaError::OutOfMemory
    );
}
