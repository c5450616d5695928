//! The refusals and faults: their numbers, names and printed forms, which never change; and a key,
//! which is not printed.

use hq_values::{Fail, Fault, Key, Refusal};
use std::alloc::AllocError;
use std::process::Abort;
use std::test::Fail as TestFail;

/// Every refusal, with its number and name.
const REFUSALS: &[(Refusal, u16, &str)] = &[
    (Refusal::BadRequest, 1, "BadRequest"),
    (Refusal::NoKey, 2, "NoKey"),
    (Refusal::WrongRole, 3, "WrongRole"),
    (Refusal::NoRoute, 4, "NoRoute"),
    (Refusal::WrongMethod, 5, "WrongMethod"),
    (Refusal::BodyTooLong, 6, "BodyTooLong"),
    (Refusal::BadJson, 7, "BadJson"),
    (Refusal::BadField, 8, "BadField"),
    (Refusal::NoMessage, 10, "NoMessage"),
    (Refusal::NoLine, 11, "NoLine"),
    (Refusal::NoNotice, 12, "NoNotice"),
    (Refusal::NoCustomer, 13, "NoCustomer"),
    (Refusal::BadAddress, 20, "BadAddress"),
    (Refusal::BadSpool, 23, "BadSpool"),
    (Refusal::BadPattern, 24, "BadPattern"),
    (Refusal::BadAction, 25, "BadAction"),
    (Refusal::BadStatus, 26, "BadStatus"),
    (Refusal::BadLabel, 27, "BadLabel"),
    (Refusal::BadText, 28, "BadText"),
    (Refusal::AttemptAhead { attempts: 1 }, 30, "AttemptAhead"),
    (Refusal::UnknownRecipient, 31, "UnknownRecipient"),
    (Refusal::DoubledRecipient, 32, "DoubledRecipient"),
    (Refusal::NoOutcome, 33, "NoOutcome"),
    (Refusal::QuotaMessages, 40, "QuotaMessages"),
    (Refusal::QuotaBytes, 41, "QuotaBytes"),
    (Refusal::QuotaLines, 42, "QuotaLines"),
    (Refusal::SerialsSpent, 43, "SerialsSpent"),
    (Refusal::NoticesSpent, 44, "NoticesSpent"),
    (Refusal::BadCsv { row: 3 }, 50, "BadCsv"),
    (Refusal::DoubledPattern { row: 3 }, 51, "DoubledPattern"),
    (Refusal::LabelUsed, 52, "LabelUsed"),
    (Refusal::BadDirectory { row: 3 }, 53, "BadDirectory"),
    (Refusal::DoubledName { row: 3 }, 54, "DoubledName"),
    (Refusal::DoubledKey { row: 3 }, 55, "DoubledKey"),
    (Refusal::BadHost, 56, "BadHost"),
    (Refusal::BadRelayKey, 57, "BadRelayKey"),
];

#[test]
fn refusals(rt: HostRuntime) {
    for (refusal, number, name) in REFUSALS {
        assert_eq!(rt; (refusal.number(), refusal.name()), (*number, *name));
    }
}

#[test]
fn faults(rt: HostRuntime) {
    for (fault, number, name) in [
        (Fault::WantOfMemory, 90, "WantOfMemory"),
        (Fault::Disk, 91, "Disk"),
        (Fault::BadSchema, 92, "BadSchema"),
        (Fault::Closed, 93, "Closed"),
    ] {
        assert_eq!(rt; (fault.number(), fault.name()), (number, name));
    }
}

/// What the command line prints of a failure.
#[test]
fn shown_failures(rt: HostRuntime) -> Result<(), TestFail> {
    for (fail, want) in [
        (Fail::Refused(Refusal::BadCsv { row: 3 }), "50 BadCsv row 3"),
        (
            Fail::Refused(Refusal::BadDirectory { row: 0 }),
            "53 BadDirectory row 0",
        ),
        (
            Fail::Refused(Refusal::AttemptAhead { attempts: 1 }),
            "30 AttemptAhead attempts 1",
        ),
        (Fail::Refused(Refusal::NoCustomer), "13 NoCustomer"),
        (Fail::Fault(Fault::BadSchema), "92 BadSchema"),
        (Fail::from(AllocError), "90 WantOfMemory"),
    ] {
        let shown = format!(in rt.alloc(); "{fail}")?;
        assert_eq!(rt; shown.as_str(), want);
    }
    Ok(())
}

#[test]
fn a_key_stays_out_of_logs(rt: HostRuntime) -> Result<(), TestFail> {
    let key = Key::parse(rt.alloc(), "acmekey000000001")?;
    let shown = format!(in rt.alloc(); "{key:?}")?;
    assert_eq!(rt; shown.as_str(), "Key(..)");
    Ok(())
}
