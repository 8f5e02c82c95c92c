//! Tests of `sdb_value`: values that are parsed, measured, searched, changed and printed.
ghost use Rattle.std.specs.Prelude.{◌≡◌, OnOk, ⊤};
ghost use Rattle.sdb_value.specs.View.{value_of};

use crate::helpers::{
    append_parts, check_rows, concat, displays_as, json, json_of, json_prints_as, json_text,
    parse_value, text_of, with_repeated,
};
use json::Writer;
use sdb_value::{
    Change, Json, List, MAX, Members, Path, Step, ValueFault, Whole, change_at, count_of, cut_at,
    find, find_mut, from_value, insert_item, laws, list_mut, object_mut, put_at_key, remove_at_key,
    remove_item, replace_item, text_mut, units, values_equal, whole_of, write_value,
};
use serde_json::Value;
use std::alloc::{AllocError, Global};
use std::process::Abort;

fn written_bytes(rt: &impl Abort, alloc: Global, json: &Json) -> Vec<u8> {
    let mut out = Writer::new(Vec::new(alloc));
    write_value(json, &mut out).expect(rt, "out of memory");
    out.into_inner()
}

fn parse_step(rt: &impl Abort, alloc: Global, item: &Value) -> Step {
    match item.as_u64() {
        Some(index) => Step::Index(index),
        None => Step::Key(text_of(rt, alloc, &item.as_str().expect(rt, "a step"))),
    }
}

// Returns the path of a list of keys and indexes.
fn path_of(rt: &impl Abort, alloc: Global, steps: &Value) -> Path {
    let mut path = Vec::new(alloc);
    for item in steps.as_array().expect(rt, "a list") {
        path.push(parse_step(rt, alloc, item))
            .expect(rt, "out of memory");
    }
    path
}

// Returns the text of lists nested to this depth.
fn nested_lists(rt: &impl Abort, alloc: Global, depth: u64) -> String {
    let opened = with_repeated(rt, alloc, "", "[", depth);
    with_repeated(rt, alloc, opened.as_str(), "]", depth)
}

const SOURCE: &str =
    r#"{"b":[null,true,false,-9007199254740991,9007199254740991,"aé😀\"\n",[],{}],"a":{"k":0}}"#;

const PRINTED: &str =
    r#"{"a":{"k":0},"b":[null,true,false,-9007199254740991,9007199254740991,"aé😀\"\n",[],{}]}"#;

#[test]
fn a_value_is_parsed_and_printed(rt: HostRuntime) {
    let value = json(&rt, rt.alloc(), SOURCE);
    assert!(rt;
        json_prints_as(&rt, rt.alloc(), &value, PRINTED)
            && written_bytes(&rt, rt.alloc(), &value).as_slice() == PRINTED.as_bytes()
    );
}

#[test]
fn a_clone_equals_its_original(rt: HostRuntime) {
    let value = json(&rt, rt.alloc(), SOURCE);
    let clone = value.try_clone(rt.alloc()).expect(&rt, "out of memory");
    assert!(rt; values_equal(&clone, &value));
    drop(value);
    assert!(rt; json_prints_as(&rt, rt.alloc(), &clone, PRINTED));
}

#[test]
fn depth_is_counted(rt: HostRuntime) {
    assert!(rt;
        json(&rt, rt.alloc(), r#""a""#).depth() == 0
            && json(&rt, rt.alloc(), r#"{"a":[1],"b":{"c":[]}}"#).depth() == 3
    );
    let text = nested_lists(&rt, rt.alloc(), 50);
    let value = json(&rt, rt.alloc(), text.as_str());
    assert!(rt; value.depth() == 50 && json_prints_as(&rt, rt.alloc(), &value, text.as_str()));
}

// Rows of a JSON number, and its value as an integer and as a count.
const NUMBERS: &str = r#"[
  [0, 0, 0],
  [9007199254740991, 9007199254740991, 9007199254740991],
  [9007199254740992, null, null],
  [18446744073709551615, null, null],
  [-1, -1, null],
  [-9007199254740991, -9007199254740991, null],
  [-9007199254740992, null, null],
  [1.0, null, null],
  [1e2, null, null]
]"#;

fn integer_of(value: &Value) -> Option<i64> {
    whole_of(value).map(Whole::get)
}

fn is_number(_rt: &impl Abort, _alloc: Global, row: &[Value]) -> bool {
    let [value, wanted, count] = row else {
        return false;
    };
    integer_of(value) == wanted.as_i64() && count_of(value) == count.as_u64()
}

#[test]
fn numbers_are_parsed_or_refused(rt: HostRuntime) {
    check_rows(&rt, rt.alloc(), NUMBERS, is_number);
    assert!(rt;
        count_of(&parse_value(&rt, rt.alloc(), NUMBERS)).is_none()
            && MAX == 9007199254740991
            && Whole::MAX == 9007199254740991
    );
}

fn sum(a: i64, b: i64) -> Option<i64> {
    Whole::new(a)?.checked_add(Whole::new(b)?).map(Whole::get)
}

#[test]
fn whole_numbers_stay_in_range(rt: HostRuntime) {
    assert!(rt;
        Whole::new(9007199254740992).is_none()
            && Whole::new(-9007199254740992).is_none()
            && sum(Whole::MAX, 0) == Some(Whole::MAX)
            && sum(Whole::MAX, 1).is_none()
            && sum(-Whole::MAX, -1).is_none()
            && sum(Whole::MAX, -1) == Some(9007199254740990)
    );
    assert!(rt; sum(3, -5) == Some(-2));
}

// Rows of a value, and its size.
const SIZES: &str = r#"[
  [null, 1],
  ["", 1],
  ["aé", 4],
  [[], 1],
  [[1,[true,null]], 5],
  [{"key":1}, 5],
  [{"":"😀","b":{"c":[]}}, 10]
]"#;

// Returns whether the size is right with this limit.
fn has_size_up_to(value: &Json, limit: u64, wanted: u64) -> bool {
    value.size(limit) == limit.min(wanted)
}

// Returns whether the size is right with each limit.
fn has_size_at_each_limit(value: &Json, wanted: u64) -> bool {
    laws::well_formed(value);
    for limit in 0..=11 {
        if !has_size_up_to(value, limit, wanted) {
            return false;
        }
    }
    has_size_up_to(value, 18446744073709551615, wanted)
}

fn has_size(rt: &impl Abort, alloc: Global, row: &[Value]) -> bool {
    let [value, size] = row else {
        return false;
    };
    let size = size.as_u64().expect(rt, "a size");
    has_size_at_each_limit(&json_of(rt, alloc, value), size)
}

#[test]
fn sizes_are_counted_up_to_a_limit(rt: HostRuntime) {
    check_rows(&rt, rt.alloc(), SIZES, has_size);
}

#[test]
fn faults_display_their_texts(rt: HostRuntime) {
    let number = "a number is not whole or too large";
    assert!(rt;
        displays_as(&rt, rt.alloc(), &ValueFault::NumberOutOfRange, number)
            && displays_as(
                &rt,
                rt.alloc(),
                &ValueFault::TooDeep,
                "a value nests too deep"
            )
            && displays_as(&rt, rt.alloc(), &ValueFault::OutOfMemory, "out of memory")
    );
}

const DOCUMENT: &str = r#"{"a":[1,{"b":"x"}],"c":null,"d":true}"#;

// Rows of a path into that value, and the value at the path.
const PATHS: &str = r#"[
  [[], {"a":[1,{"b":"x"}],"c":null,"d":true}],
  [["a"], [1,{"b":"x"}]],
  [["a",0], 1],
  [["a",1,"b"], "x"],
  [["c"], null],
  [["b"], "nothing"],
  [["a",2], "nothing"],
  [["a",9007199254740991], "nothing"],
  [["a","b"], "nothing"],
  [["a",0,0], "nothing"],
  [["a",0,"b"], "nothing"],
  [["a",1,"b",0], "nothing"],
  [["a",1,"b","b"], "nothing"],
  [[0], "nothing"],
  [["c",0], "nothing"],
  [["c","b"], "nothing"],
  [["d",0,"b"], "nothing"]
]"#;

fn json_text_or_nothing(rt: &impl Abort, alloc: Global, target: Option<&Json>) -> String {
    match target {
        Some(target) => json_text(rt, alloc, target),
        None => text_of(rt, alloc, &r#""nothing""#),
    }
}

fn found_mut_text(rt: &impl Abort, alloc: Global, value: &mut Json, path: &Path) -> String {
    match find_mut(value, path) {
        Some(target) => json_text(rt, alloc, target),
        None => json_text_or_nothing(rt, alloc, None),
    }
}

// Checks `find` and `find_mut` for a row. Also checks that a search without a result changes
// nothing, which no clause states.
fn is_found(rt: &impl Abort, alloc: Global, row: &[Value]) -> bool {
    let [steps, wanted] = row else {
        return false;
    };
    let path = path_of(rt, alloc, steps);
    let wanted = text_of(rt, alloc, wanted);
    let mut value = json(rt, alloc, DOCUMENT);
    json_text_or_nothing(rt, alloc, find(&value, &path)).as_str() == wanted.as_str()
        && found_mut_text(rt, alloc, &mut value, &path).as_str() == wanted.as_str()
        && json_prints_as(rt, alloc, &value, DOCUMENT)
}

#[test]
fn values_are_found_at_their_paths(rt: HostRuntime) {
    check_rows(&rt, rt.alloc(), PATHS, is_found);
}

// Replaces the value at the path by `true`.
fn set_true(value: &mut Json, path: &Path) {
    if let Some(target) = find_mut(value, path) {
        *target = Json::Bool(true);
    }
}

#[test]
fn find_mut_changes_a_value(rt: HostRuntime) {
    let mut value = json(&rt, rt.alloc(), DOCUMENT);
    let path = path_of(
        &rt,
        rt.alloc(),
        &parse_value(&rt, rt.alloc(), r#"["a",1,"b"]"#),
    );
    set_true(&mut value, &path);
    let after = r#"{"a":[1,{"b":true}],"c":null,"d":true}"#;
    assert!(rt; json_prints_as(&rt, rt.alloc(), &value, after));
}

// The value shares its parts with another one. A search, with or without a result, changes neither.
#[test]
fn find_mut_leaves_a_shared_value_unchanged(rt: HostRuntime) {
    let alloc = rt.alloc();
    for steps in [
        r#"[]"#,
        r#"["a"]"#,
        r#"["a",1,"b"]"#,
        r#"["c"]"#,
        r#"["a",2]"#,
    ] {
        let mut value = json(&rt, alloc, DOCUMENT);
        value.freeze(alloc).expect(&rt, "out of memory");
        let other = value.frozen_clone(alloc).expect(&rt, "out of memory");
        let path = path_of(&rt, alloc, &parse_value(&rt, alloc, steps));
        let _ = find_mut(&mut value, &path);
        assert!(rt; json_prints_as(&rt, alloc, &value, DOCUMENT), "{steps}");
        assert!(rt; json_prints_as(&rt, alloc, &other, DOCUMENT), "{steps}");
    }
}

#[test]
fn numbers_out_of_range_are_refused(rt: HostRuntime) {
    for number in [
        "9007199254740992",
        "9223372036854775807",
        "9223372036854775808",
        "18446744073709551615",
        "18446744073709551616",
        "-9007199254740992",
        "-9223372036854775808",
        "-9223372036854775809",
        "1.5",
        "1e300",
    ] {
        let value = parse_value(&rt, rt.alloc(), number);
        let parsed = from_value(rt.alloc(), &value);
        assert!(rt;
            matches!(parsed, Err(ValueFault::NumberOutOfRange)),
            "{number}"
        );
    }
}

// Replaces a value, and returns the depth of the old one.
#[derive(Drop)]
struct Replace<'a> {
    alloc: Global,
    new: &'a Json,
}

impl Change for Replace<'_> {
    type Output = Result<u64, AllocError>;

    ghost relation = { λ r _ e o. OnOk o (e ≡ value_of r.new.now) };

    ghost keeps_unique = { λ _. ⊤ };

    ghost result_unique = { λ _ _. ⊤ };

    fn change(self, target: &mut Json) -> Result<u64, AllocError> {
        let depth = target.depth();
        *target = self.new.deep_clone(self.alloc)?;
        Ok(depth)
    }
}

fn depth_of(rt: &impl Abort, changed: Option<Result<u64, AllocError>>) -> Option<u64> {
    Some(changed?.expect(rt, "out of memory"))
}

// Replaces the value at the path by null, and returns the depth of the old one.
fn set_null(rt: &impl Abort, alloc: Global, value: &mut Json, steps: &str) -> Option<u64> {
    let path = path_of(rt, alloc, &parse_value(rt, alloc, steps));
    let null = Json::Null;
    let replace = Replace { alloc, new: &null };
    let changed = change_at(alloc, value, &path, replace);
    depth_of(rt, changed.expect(rt, "out of memory"))
}

// The value at a path becomes null; paths that lead to no value change nothing.
#[test]
fn change_at_changes_the_value_at_a_path(rt: HostRuntime) {
    let mut value = json(&rt, rt.alloc(), r#"{"a":[1,{"b":[[]]}],"c":2}"#);
    let after = r#"{"a":[1,{"b":null}],"c":2}"#;
    assert!(rt;
        set_null(&rt, rt.alloc(), &mut value, r#"["a",1,"b"]"#) == Some(2)
            && json_prints_as(&rt, rt.alloc(), &value, after)
            && set_null(&rt, rt.alloc(), &mut value, r#"["a",2]"#).is_none()
            && set_null(&rt, rt.alloc(), &mut value, r#"["b"]"#).is_none()
            && json_prints_as(&rt, rt.alloc(), &value, after)
    );
}

#[test]
fn change_at_the_empty_path_changes_the_root(rt: HostRuntime) {
    let mut value = json(&rt, rt.alloc(), r#"{"a":[1,{"b":null}],"c":2}"#);
    assert!(rt;
        set_null(&rt, rt.alloc(), &mut value, "[]") == Some(3)
            && json_prints_as(&rt, rt.alloc(), &value, "null")
    );
}

// Checks the byte index of each offset.
fn assert_cuts(rt: &impl Abort, text: &str, cuts: &[(u64, Option<usize>)]) {
    for (offset, wanted) in cuts {
        assert!(rt; cut_at(text, *offset) == *wanted, "{offset}");
    }
}

#[test]
fn utf_16_offsets_are_mapped_to_bytes(rt: HostRuntime) {
    assert!(rt; units("") == 0 && units("a😀b") == 4 && units("aé€") == 3);
    let cuts = [
        (0, Some(0)),
        (1, Some(1)),
        (2, None),
        (3, Some(5)),
        (4, Some(6)),
        (5, None),
    ];
    assert_cuts(&rt, "a😀b", &cuts);
}

// Returns a text with one surrogate pair across byte 4096 and another one after byte 8192.
fn text_with_split_pairs(rt: &impl Abort, alloc: Global) -> String {
    let text = with_repeated(rt, alloc, "", "a", 4095);
    let text = with_repeated(rt, alloc, text.as_str(), "😀", 1);
    let text = with_repeated(rt, alloc, text.as_str(), "b", 5000);
    with_repeated(rt, alloc, text.as_str(), "😀", 1)
}

#[test]
fn utf_16_offsets_in_long_texts_are_mapped_to_bytes(rt: HostRuntime) {
    let text = text_with_split_pairs(&rt, rt.alloc());
    assert!(rt; units(text.as_str()) == 9099);
    let cuts = [
        (4094, Some(4094)),
        (4095, Some(4095)),
        (4096, None),
        (4097, Some(4099)),
        (4098, Some(4100)),
        (8189, Some(8191)),
        (8190, Some(8192)),
        (8191, Some(8193)),
        (9097, Some(9099)),
        (9098, None),
        (9099, Some(9103)),
        (9100, None),
    ];
    assert_cuts(&rt, text.as_str(), &cuts);
}

// Returns a text of surrogate pairs from byte 4096 to byte 12288.
fn text_of_pairs(rt: &impl Abort, alloc: Global) -> String {
    let text = with_repeated(rt, alloc, "", "a", 4096);
    with_repeated(rt, alloc, text.as_str(), "😀", 2048)
}

#[test]
fn offsets_within_surrogate_pairs_have_no_byte(rt: HostRuntime) {
    let text = text_of_pairs(&rt, rt.alloc());
    assert!(rt; units(text.as_str()) == 8192);
    let cuts = [
        (4096, Some(4096)),
        (4097, None),
        (4098, Some(4100)),
        (6144, Some(8192)),
        (6145, None),
        (8192, Some(12288)),
        (8193, None),
    ];
    assert_cuts(&rt, text.as_str(), &cuts);
}

fn change_items(rt: &impl Abort, alloc: Global, items: &mut List) {
    let inserted = insert_item(alloc, items, 3, json(rt, alloc, "4"));
    assert!(rt;
        inserted.expect(rt, "out of memory")
            && remove_item(alloc, items, 0).expect(rt, "out of memory")
    );
    let replaced = replace_item(alloc, items, 1, json(rt, alloc, r#""q""#));
    assert!(rt; replaced.expect(rt, "out of memory"));
}

#[test]
fn a_list_is_changed_in_place(rt: HostRuntime) {
    let mut list = json(&rt, rt.alloc(), "[1,2,3]");
    change_items(&rt, rt.alloc(), list_mut(&mut list).expect(&rt, "a list"));
    assert!(rt; json_prints_as(&rt, rt.alloc(), &list, r#"[2,"q",4]"#));
}

fn insert_member(rt: &impl Abort, alloc: Global, members: &mut Members, key: &str, value: Json) {
    put_at_key(alloc, members, text_of(rt, alloc, &key), value).expect(rt, "out of memory");
}

fn change_members(rt: &impl Abort, alloc: Global, members: &mut Members) {
    insert_member(rt, alloc, members, "b", json(rt, alloc, "2"));
    insert_member(rt, alloc, members, "c", Json::Null);
    remove_at_key(alloc, members, "a").expect(rt, "out of memory");
}

#[test]
fn an_object_is_changed_in_place(rt: HostRuntime) {
    let mut object = json(&rt, rt.alloc(), r#"{"a":1,"c":3}"#);
    change_members(
        &rt,
        rt.alloc(),
        object_mut(&mut object).expect(&rt, "an object"),
    );
    assert!(rt; json_prints_as(&rt, rt.alloc(), &object, r#"{"b":2,"c":null}"#));
}

#[test]
fn a_text_is_changed_in_place(rt: HostRuntime) {
    let mut text = json(&rt, rt.alloc(), r#""a😀b""#);
    let inside = text_mut(&mut text).expect(&rt, "a text");
    assert!(rt;
        inside
            .insert(rt.alloc(), 3, "xy")
            .expect(&rt, "out of memory")
            && inside
                .remove(rt.alloc(), 1, "😀x")
                .expect(&rt, "out of memory")
            && json_prints_as(&rt, rt.alloc(), &text, r#""ayb""#)
    );
}

// Returns the text of an object with a member for each number from 100 to 999, or for each even
// one.
fn wide_object_text(rt: &impl Abort, alloc: Global, with_odd: bool) -> String {
    let mut text = with_repeated(rt, alloc, r#"{"k100":100"#, "", 0);
    for number in 101_u64..1_000 {
        if with_odd || number % 2 == 0 {
            let number = text_of(rt, alloc, &number);
            append_parts(
                rt,
                &mut text,
                &[r#","k"#, number.as_str(), r#"":"#, number.as_str()],
            );
        }
    }
    with_repeated(rt, alloc, text.as_str(), "}", 1)
}

// Removes the members of odd numbers, or inserts them again.
fn change_odd_members(rt: &impl Abort, alloc: Global, object: &mut Json, is_insertion: bool) {
    let object = object_mut(object).expect(rt, "an object");
    for half in 50_i64..500 {
        let number = half.wrapping_mul(2).wrapping_add(1);
        let key = concat(rt, alloc, "k", &[text_of(rt, alloc, &number).as_str()]);
        if is_insertion {
            let value = Json::Int(Whole::new(number).expect(rt, "a number"));
            put_at_key(alloc, object, key, value).expect(rt, "out of memory");
        } else {
            remove_at_key(alloc, object, key.as_str()).expect(rt, "out of memory");
        }
    }
}

#[test]
fn changes_of_a_wide_object_leave_its_clone_unchanged(rt: HostRuntime) {
    let whole = wide_object_text(&rt, rt.alloc(), true);
    let half = wide_object_text(&rt, rt.alloc(), false);
    let mut object = json(&rt, rt.alloc(), whole.as_str());
    assert!(rt; !object.is_shared());
    object.freeze(rt.alloc()).expect(&rt, "out of memory");
    assert!(rt; object.is_shared() && !Json::Null.is_shared());
    let clone = object.try_clone(rt.alloc()).expect(&rt, "out of memory");
    change_odd_members(&rt, rt.alloc(), &mut object, false);
    assert!(rt; json_prints_as(&rt, rt.alloc(), &object, half.as_str()));
    change_odd_members(&rt, rt.alloc(), &mut object, true);
    assert!(rt;
        json_prints_as(&rt, rt.alloc(), &object, whole.as_str())
            && json_prints_as(&rt, rt.alloc(), &clone, whole.as_str())
    );
}

#[test]
fn an_object_is_rebuilt_from_its_members(rt: HostRuntime) {
    let mut object = json(&rt, rt.alloc(), r#"{"a":null}"#);
    object.freeze(rt.alloc()).expect(&rt, "out of memory");
    let members = object.members().expect(&rt, "an object");
    assert!(rt; members.get("a").expect(&rt, "a member").is_null() && !object.is_null());
    let clone = members.clone_shared().expect(&rt, "out of memory");
    let mut clone = clone.expect(&rt, "a frozen object");
    insert_member(&rt, rt.alloc(), &mut clone, "a", Json::Null);
    assert!(rt; values_equal(&object, &Json::from_members(clone)));
}

// Returns a value with a list and an object of several chunks and a text of several chunks.
fn wide_value(rt: &impl Abort, alloc: Global) -> Json {
    let items = with_repeated(rt, alloc, "", r#"{"n":[1]},"#, 1_500);
    let object = wide_object_text(rt, alloc, true);
    let letters = with_repeated(rt, alloc, "", "aé😀", 3_000);
    let parts = [
        items.as_str(),
        r#"0],"o":"#,
        object.as_str(),
        r#","t":""#,
        letters.as_str(),
        r#""}"#,
    ];
    json(rt, alloc, concat(rt, alloc, r#"{"l":["#, &parts).as_str())
}

// Replaces some values by null.
fn change_some(rt: &impl Abort, alloc: Global, value: &mut Json) {
    assert!(rt;
        set_null(rt, alloc, value, r#"["l",700,"n",0]"#) == Some(0)
            && set_null(rt, alloc, value, r#"["l",1400]"#).is_some()
            && set_null(rt, alloc, value, r#"["o","k500"]"#) == Some(0)
            && set_null(rt, alloc, value, r#"["t"]"#) == Some(0)
    );
}

// Returns whether the same changes on a clone give an equal value.
fn changes_alike(rt: &impl Abort, alloc: Global, first: &Json) -> bool {
    let mut third = first.frozen_clone(alloc).expect(rt, "out of memory");
    change_some(rt, alloc, &mut third);
    values_equal(first, &third)
}

// A change of a clone leaves the original unchanged, and the reverse.
#[test]
fn changes_of_a_value_leave_its_clone_unchanged(rt: HostRuntime) {
    let value = wide_value(&rt, rt.alloc());
    let shared = value.frozen_clone(rt.alloc()).expect(&rt, "out of memory");
    let mut first = shared.try_clone(rt.alloc()).expect(&rt, "out of memory");
    let second = first.try_clone(rt.alloc()).expect(&rt, "out of memory");
    change_some(&rt, rt.alloc(), &mut first);
    assert!(rt;
        changes_alike(&rt, rt.alloc(), &first)
            && values_equal(&value, &second)
            && values_equal(&shared, &second)
            && !values_equal(&first, &second)
    );
}
