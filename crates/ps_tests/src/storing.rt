//! Sharing, order, closing and limits, with ample memory.

use ps_store::{ArrayId, DictId, Key, Part, PsObj, PsStore, StoreFault, StringId};
use std::test::Fail;

/// Puts an element where there is one.
fn put(store: &mut PsStore, a: ArrayId, at: u32, value: PsObj) -> bool {
    (at as usize) < store.array_get(a).len() && store.array_put(a, at, value).is_ok()
}

/// Puts two elements where there are so many.
fn put_two(store: &mut PsStore, a: ArrayId, items: [PsObj; 2]) -> bool {
    2 <= store.array_get(a).len() && store.array_write(a, 0, &items).is_ok()
}

/// Puts two bytes behind the first where there are so many.
fn write_two(store: &mut PsStore, s: StringId, bytes: [u8; 2]) -> bool {
    3 <= store.string_get(s).len() && store.string_write(s, 1, &bytes).is_ok()
}

/// The names of three texts.
fn three_texts(store: &mut PsStore) -> Result<(StringId, StringId, StringId), StoreFault> {
    let a = store.make_string(b"abc")?;
    let b = store.make_name(b"add")?;
    let c = store.make_name(b"exch")?;
    Ok((a, b, c))
}

/// Settles what is deferred under a key.
fn settled(store: &mut PsStore, d: DictId, key: &Key, value: PsObj) -> bool {
    match store.dict_get(d, key) {
        Some(PsObj::Str(_, true)) => {
            store.settle(d, key, value);
            true
        }
        _ => false,
    }
}

/// Makes an array of the command's part and drops it; what it holds before and after.
fn made_and_dropped(store: &mut PsStore) -> Result<(usize, usize), StoreFault> {
    store.use_part(Part::Command);
    let mark = store.mark();
    let a = store.make_array_of(&[PsObj::Int(5), PsObj::Null])?;
    let before = store.array_get(a).len();
    if let Part::Command = store.part() {
        store.cut_back(mark);
    }
    Ok((before, store.array_get(a).len()))
}

#[test]
fn arrays_are_shared(rt: HostRuntime) -> Result<(), Fail> {
    let mut store = PsStore::new(rt.alloc())?;
    let a = store.make_array(3)?;
    assert!(rt; put_two(&mut store, a, [PsObj::Int(9), PsObj::Mark]));
    assert!(rt; put(&mut store, a, 0, PsObj::Bool(true)));
    assert!(rt;
        matches!(
            store.array_get(a),
            [PsObj::Bool(true), PsObj::Mark, PsObj::Null]
        )
    );
    Ok(())
}

#[test]
fn strings_are_shared(rt: HostRuntime) -> Result<(), Fail> {
    let mut store = PsStore::new(rt.alloc())?;
    let (s, add, exch) = three_texts(&mut store)?;
    assert!(rt; write_two(&mut store, s, [100, 100]));
    assert!(rt; store.same_bytes(s, add));
    assert!(rt; !store.same_bytes(s, exch));
    assert_eq!(rt; store.operator_named(s), store.operator_named(add));
    assert_eq!(rt; store.operator_named(exch), Some(0));
    Ok(())
}

/// Puts under two names and a number, and then under the first name again.
fn filled(store: &mut PsStore, d: DictId) -> Result<StringId, StoreFault> {
    let (x, y, _) = three_texts(store)?;
    store.name_put(d, x, PsObj::Int(1))?;
    store.name_put(d, y, PsObj::Int(2))?;
    store.dict_put(d, Key::Int(7), PsObj::Str(y, true))?;
    store.name_put(d, x, PsObj::Int(3))?;
    Ok(x)
}

/// Whether a value is this integer.
fn holds(value: Option<PsObj>, n: i32) -> bool {
    match value {
        Some(PsObj::Int(m)) => m == n,
        _ => false,
    }
}

#[test]
fn keys_keep_their_order(rt: HostRuntime) -> Result<(), Fail> {
    let mut store = PsStore::new(rt.alloc())?;
    let d = store.make_dict()?;
    let x = filled(&mut store, d)?;
    assert_eq!(rt; store.dict_len(d), 3);
    assert!(rt; holds(store.pair_at(d, 0).map(|pair| pair.value), 3));
    assert!(rt; holds(store.pair_at(d, 1).map(|pair| pair.value), 2));
    assert!(rt; holds(store.name_get(d, x), 3));
    assert!(rt; holds(store.text_get(d, b"add"), 2));
    Ok(())
}

#[test]
fn closed_objects_stay(rt: HostRuntime) -> Result<(), Fail> {
    let mut store = PsStore::new(rt.alloc())?;
    let d = store.make_dict()?;
    let a = store.make_array(2)?;
    filled(&mut store, d)?;
    store.set_top(d);
    store.add_base(d)?;
    store.close_all();
    assert!(rt; store.top() == Some(d));
    assert_eq!(rt; store.base().len(), 2);
    assert!(rt; !put(&mut store, a, 0, PsObj::Mark));
    assert!(rt; filled(&mut store, d).is_err());
    assert!(rt; settled(&mut store, d, &Key::Int(7), PsObj::Mark));
    assert!(rt; matches!(store.dict_get(d, &Key::Int(7)), Some(PsObj::Mark)));
    assert_eq!(rt; made_and_dropped(&mut store)?, (2, 0));
    Ok(())
}

#[test]
fn limits_and_one_past_them(rt: HostRuntime) -> Result<(), Fail> {
    let mut store = PsStore::new(rt.alloc())?;
    assert!(rt; store.make_array(1_000_000).is_ok());
    assert_eq!(rt; store.make_array(1_000_001).err(), Some(StoreFault::Limit));
    assert!(rt; store.make_zeros(16_777_216).is_ok());
    assert_eq!(rt; store.make_zeros(16_777_217).err(), Some(StoreFault::Limit));
    assert!(rt; store.make_name(&[97; 127]).is_ok());
    assert_eq!(rt; store.make_name(&[97; 128]).err(), Some(StoreFault::Limit));
    assert!(rt; Key::name(&[97; 128]).is_none());
    Ok(())
}
