use sfs_base::{Bytes, Failed, NoMemory, Seq, Table};
use std::alloc::AllocError;
use std::test::*;

#[test]
fn a_list_keeps_what_was_pushed(rt: HostRuntime) -> Result<(), Fail> {
    let mut list: Seq<u32> = Seq::new(rt.alloc());
    assert!(rt; list.is_empty());
    list.push(7)?;
    list.push(9)?;
    assert_eq!(rt; list.len(), 2);
    assert_eq!(rt; list.as_slice(), [7, 9].as_slice());
    assert_eq!(rt; list.into_vec().as_slice(), [7, 9].as_slice());
    Ok(())
}

#[test]
fn a_clone_equals_its_list_until_one_grows(rt: HostRuntime) -> Result<(), Fail> {
    let list: Bytes = Seq::from(Vec::from_slice(rt.alloc(), &[7, 9])?);
    let mut clone = list.clone()?;
    assert!(rt; clone == list);
    clone.append(Seq::from_slice(rt.alloc(), &[5])?)?;
    assert!(rt; clone != list);
    if clone.len() == 3 {
        assert_eq!(rt; clone.replace(1, 8), 9);
    }
    assert_eq!(rt; clone.as_slice(), [7, 8, 5].as_slice());
    Ok(())
}

#[test]
fn a_table_is_a_finite_map(rt: HostRuntime) -> Result<(), Fail> {
    let mut table: Table<u8> = Table::new(rt.alloc());
    assert!(rt; table.is_empty());
    assert_eq!(rt; table.insert(5, 50)?, None);
    assert_eq!(rt; table.insert(u32::MAX, 60)?, None);
    assert_eq!(rt; table.insert(5, 51)?, Some(50));
    assert_eq!(rt; table.replace(6, 70), None);
    assert_eq!(rt; table.replace(5, 52), Some(51));
    assert_eq!(rt; (table.len(), table.last_key()), (2, Some(u32::MAX)));
    assert_eq!(rt; (table.get(5), table.get(6)), (Some(&52), None));
    assert_eq!(rt; table.next_from(6), Some(u32::MAX));
    assert_eq!(rt; table.remove(u32::MAX), Some(60));
    assert_eq!(rt; table.next_from(6), None);
    Ok(())
}

#[test]
fn entries_come_in_ascending_order(rt: HostRuntime) -> Result<(), Fail> {
    let mut table: Table<u8> = Table::new(rt.alloc());
    table.insert(9, 1)?;
    table.insert(2, 2)?;
    let mut seen: Vec<u32> = Vec::new(rt.alloc());
    for (at, _) in table.iter() {
        seen.push(*at)?;
    }
    assert_eq!(rt; seen.as_slice(), [2, 9].as_slice());
    Ok(())
}

#[test]
fn answers_are_printed_in_words(rt: HostRuntime) -> Result<(), Fail> {
    let no_memory = NoMemory::from(AllocError);
    assert_eq!(rt;
        format!(in rt.alloc(); "{no_memory}; {Failed}")?.as_str(),
        "no memory; a call on the outside failed"
    );
    Ok(())
}
