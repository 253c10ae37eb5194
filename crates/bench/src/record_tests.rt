// Records, refusals and their layout on examples.
use code::{Places, Record, Target};
use records::{Fault, Operation, Reason, Refusal};
use std::test::Fail;

#[test]
fn a_record_is_written_and_read_back(rt: HostRuntime) -> Result<(), Fail> {
    let places = Places::new(2, [3, 515, 0, 0]).ok_or_else(|| Fail::new("no places"))?;
    let record = Record::new(Operation::Literal, 258, -2, Target::At(places)).ok_or_else(
        || Fail::new("no record"),
    )?;
    let bytes = record.write();
    assert!(rt; &bytes == b"\x02\x02\x02\x01\xfe\xff\xff\xff\x03\0\x03\x02\0\0\0\0");
    let back = Record::read(&bytes).ok_or_else(|| Fail::new("not read"))?;
    assert_eq!(rt; back.operation, Operation::Literal);
    assert_eq!(rt; back.node, 258);
    assert_eq!(rt; back.argument, -2);
    assert_eq!(rt; back.target.count_byte(), 2);
    assert!(rt; &back.write() == &bytes);
    Ok(())
}

#[test]
fn what_a_record_may_not_hold_is_refused(rt: HostRuntime) {
    assert!(rt; Places::new(5, [0, 1, 2, 3]).is_none());
    assert!(rt; Places::new(2, [1, 1, 0, 0]).is_none());
    assert!(rt; Places::new(1, [1, 2, 0, 0]).is_none());
    assert!(rt; Target::new(255, [0, 0, 0, 1]).is_none());
    assert!(rt; Target::new(254, [0, 0, 0, 0]).is_none());
    assert!(rt; Record::new(Operation::Input, 0, 64, Target::Rear).is_none());
    assert!(rt; Record::new(Operation::Input, 0, -1, Target::Rear).is_none());
    assert!(rt; Record::new(Operation::Input, 0, 63, Target::Rear).is_some());
    assert!(rt; Record::new(Operation::Negate, 0, 1, Target::Rear).is_none());
    assert!(rt; Record::new(Operation::Literal, 65535, i32::MIN, Target::Rear).is_some());
    assert!(rt; Record::read(b"\x02\xff\0\0\0\0\0\0\0\0\0\0\0\0\0").is_none());
}

#[test]
fn refusals_are_printed(rt: HostRuntime) -> Result<(), Fail> {
    let unknown = Reason::NameNotKnown.at(2);
    assert_eq!(rt; unknown.to_string(rt.alloc())?.as_str(), "refused 6 at 2");
    let fault = Fault::new(3).ok_or_else(|| Fail::new("no fault"))?;
    let faulted = Reason::Faulted(fault).at(8);
    assert_eq!(rt;
        faulted.to_string(rt.alloc())?.as_str(),
        "refused 29 at 8 with fault 3"
    );
    assert!(rt; Fault::new(0).is_none());
    assert_eq!(rt; faulted, faulted);
    assert_ne!(rt; faulted, unknown);
    Ok(())
}
