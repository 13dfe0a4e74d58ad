use hm_base::node::GroupKind;
use hm_base::value::Value;
use hm_schedule::event::Event;
use hm_schedule::generator::Generator;
use hm_schedule::line::Line;
use std::test::Fail;

#[test]
fn makes_the_schedule_of_a_number(rt: HostRuntime) -> Result<(), Fail> {
    let group = Line::Group {
        kind: GroupKind::Vr,
        size: 7,
    };
    let next = Line::Event(Event::Next);
    let write = Event::Write {
        client: 3,
        object: 11,
        value: Value::from_slice(&[0, 9]).ok_or("a value")?,
        switch: 1,
    };
    let drop = Line::Event(Event::Drop);
    let mut generator = Generator::open(42, GroupKind::Vr, 7);
    for line in [
        group,
        next,
        next,
        next,
        next,
        next,
        drop,
        next,
        next,
        Line::Event(write),
    ] {
        assert_eq!(rt; generator.next_line(), Some(line));
    }
    Ok(())
}
