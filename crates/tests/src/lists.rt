//! The list over places handed in, with bytes and with question lines.
use list::List;
use logic::line::Line;
use refusal::Numbered;
use std::test::Fail;

#[test]
fn bytes(rt: HostRuntime) -> Result<(), Fail> {
    let mut places = [7u8, 8, 9];
    let mut list = List::empty(&mut places);
    assert!(rt; list.count() == 0);
    assert!(rt; list.at(0).is_none());
    assert!(rt; list.add(1).is_ok());
    assert!(rt; list.add(2).is_ok());
    assert_eq!(rt; list.at(1), Some(2));
    assert!(rt; list.at(2).is_none());
    assert!(rt; list.add(3).is_ok());
    let Err(full) = list.add(4) else {
        return Err(Fail::new("a full list takes an item"));
    };
    assert_eq!(rt; full.number(), 51);
    assert!(rt; list.count() == 3);
    assert_eq!(rt; list.at(2), Some(3));
    list.clear();
    assert!(rt; list.count() == 0);
    assert!(rt; list.size() == 3);
    Ok(())
}

#[test]
fn lines(rt: HostRuntime) {
    let mut places = [Line::True; 2];
    let mut list = List::empty(&mut places);
    assert!(rt; list.add(Line::Mark(3)).is_ok());
    assert!(rt; list.items().len() == 1);
    assert_eq!(rt; list.at(0), Some(Line::Mark(3)));
}
