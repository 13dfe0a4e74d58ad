use hm_base::steps::{Counted, Steps, Uncounted};
use hm_base::value::{Value, is_same_value};
use std::test::Fail;

#[test]
fn holds_values_of_64_bytes_at_most(rt: HostRuntime) -> Result<(), Fail> {
    let long = [97; 65];
    assert!(rt; Value::from_slice(&long).is_none());
    let value = Value::from_slice(&long[..64]).ok_or("64 bytes")?;
    assert_eq!(rt; value.as_slice(), &long[..64]);
    let copy = value;
    assert!(rt; is_same_value(&value, &copy));
    let shorter = Value::from_slice(&long[..63]).ok_or("63 bytes")?;
    assert!(rt; !is_same_value(&value, &shorter));
    Ok(())
}

#[test]
fn counts_steps(rt: HostRuntime) {
    let mut steps: Steps<Counted> = Steps::new();
    assert_eq!(rt; steps.shown(), 0);
    steps.tick();
    steps.tick();
    assert_eq!(rt; steps.shown(), 2);
    let mut uncounted: Steps<Uncounted> = Steps::new();
    uncounted.tick();
}
