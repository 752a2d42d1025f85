//! Tests of trees: keys, paths and values as texts, what writes leave, and why texts are refused. A
//! table is a text of lines, each a case and what it must answer. Each helper holds few values.

ghost use Rattle.pres_tree.specs.Rows.{Fits};

use crate::tests::said::{check_tables, expect_text, json_text};
use pres_tree::{
    Key, MAX_DEPTH, Path, Scalar, ScalarForm, Text, Tree, TreeFault, TreeJson, from_value_below,
};
use serde_json::Value;
use std::alloc::Global;
use std::cmp::Ordering;
use std::process::Abort;

fn refusal(rt: &impl Abort, alloc: Global, fault: TreeFault) -> String {
    format!(in alloc; "{} {}", fault.number(), fault.name()).expect(rt, "memory")
}

fn repeated(rt: &impl Abort, alloc: Global, part: &str, count: usize) -> String {
    let mut text = String::new(alloc);
    for _ in 0..count {
        text.push_str(part).expect(rt, "memory");
    }
    text
}

fn copied_key(rt: &impl Abort, alloc: Global, key: &Key) -> String {
    let copied = key.copy(alloc).expect(rt, "memory");
    String::from_str(alloc, copied.text()).expect(rt, "memory")
}

// The text of a key, or why it is refused.
fn key_answer(rt: &impl Abort, alloc: Global, text: &str) -> String {
    match Key::parse(alloc, text) {
        Ok(key) => copied_key(rt, alloc, &key),
        Err(fault) => refusal(rt, alloc, fault),
    }
}

fn copied_path(rt: &impl Abort, alloc: Global, path: &Path) -> String {
    let copied = path.copy(alloc).expect(rt, "memory");
    copied.text(alloc).expect(rt, "memory")
}

// The one text of a path's text, or why it is refused.
fn path_answer(rt: &impl Abort, alloc: Global, text: &str) -> String {
    match Path::parse(alloc, text) {
        Ok(path) => copied_path(rt, alloc, &path),
        Err(fault) => refusal(rt, alloc, fault),
    }
}

fn path_of(rt: &impl Abort, alloc: Global, text: &str) -> Path {
    Path::parse(alloc, text).expect(rt, "a path")
}

// The path as people read it, its name, how many keys it has, and whether it is the root.
fn said_of(rt: &impl Abort, alloc: Global, path: &Path) -> String {
    let name = path.name(alloc).expect(rt, "memory");
    format!(in alloc; "{path} {name} {} {}", path.len(), path.is_root()).expect(rt, "memory")
}

// How two paths stand to each other.
fn relation(path: &Path, other: &Path) -> &'static str {
    match (
        path.is_prefix_of(other),
        other.is_prefix_of(path),
        path.cmp(other),
    ) {
        (true, true, Ordering::Equal) => "same",
        (true, false, Ordering::Less) => "above",
        (false, true, Ordering::Greater) => "below",
        (false, false, Ordering::Less) => "before",
        (false, false, Ordering::Greater) => "after",
        _ => "wrong",
    }
}

fn joined(rt: &impl Abort, alloc: Global, path: &Path, other: &Path) -> String {
    match path.join(alloc, other) {
        Ok(whole) => {
            let moved = path
                .join_owned(alloc, other.copy(alloc).expect(rt, "memory"))
                .expect(rt, "memory");
            if moved != whole {
                panic!(rt; "the moved keys made another path");
            }
            said_of(rt, alloc, &whole)
        }
        Err(fault) => refusal(rt, alloc, fault),
    }
}

fn rest(rt: &impl Abort, alloc: Global, path: &Path, other: &Path) -> String {
    match path.below(alloc, other).expect(rt, "memory") {
        Some(rest) => said_of(rt, alloc, &rest),
        None => String::from_str(alloc, "none").expect(rt, "memory"),
    }
}

fn both(rt: &impl Abort, alloc: Global, path: &Path, other: &Path) -> String {
    let joined = joined(rt, alloc, path, other);
    let rest = rest(rt, alloc, path, other);
    format!(in alloc; "{}, {joined}, {rest}", relation(path, other)).expect(rt, "memory")
}

// How two paths stand to each other, both as one, and what is left of the second below the first.
fn two_paths(rt: &impl Abort, alloc: Global, path: &str, other: &str) -> String {
    let path = path_of(rt, alloc, path);
    let other = path_of(rt, alloc, other);
    both(rt, alloc, &path, &other)
}

fn pair_answer(rt: &impl Abort, alloc: Global, case: &str) -> String {
    let (path, other) = case.split_once(' ').expect(rt, "a second path");
    two_paths(rt, alloc, path, other)
}

// The path of the first keys.
fn first_keys(rt: &impl Abort, alloc: Global, path: &str, len: usize) -> String {
    let path = path_of(rt, alloc, path);
    let first = path.prefix(alloc, len).expect(rt, "memory");
    first.text(alloc).expect(rt, "memory")
}

// The text of a case such as `33 /a+/[`: this many times a part, and an end.
fn repeated_text(rt: &impl Abort, alloc: Global, case: &str) -> String {
    let (count, rest) = case.split_once(' ').expect(rt, "a part");
    let (part, end) = rest.split_once('+').expect(rt, "an end");
    let mut text = repeated(rt, alloc, part, count.parse().expect(rt, "a number"));
    text.push_str(end).expect(rt, "memory");
    text
}

// The answer for such a text as a path: `same`, a refusal, or how many bytes its text has.
fn long_path_answer(rt: &impl Abort, alloc: Global, case: &str) -> String {
    let text = repeated_text(rt, alloc, case);
    let said = path_answer(rt, alloc, text.as_str());
    if said == text {
        return String::from_str(alloc, "same").expect(rt, "memory");
    }
    if said.len() > 100 {
        return format!(in alloc; "{} bytes", said.len()).expect(rt, "memory");
    }
    said
}

// Such a text as a path, with the path `/a`.
fn long_pair_answer(rt: &impl Abort, alloc: Global, case: &str) -> String {
    let text = repeated_text(rt, alloc, case);
    two_paths(rt, alloc, text.as_str(), "/a")
}

fn text_of(rt: &impl Abort, alloc: Global, text: &str) -> Text {
    let text = Text::of(String::from_str(alloc, text).expect(rt, "memory"));
    text.copy(alloc).expect(rt, "memory")
}

// Two texts, whether the first is less and another, and the bytes of the first.
fn texts_answer(rt: &impl Abort, alloc: Global, case: &str) -> String {
    let (first, second) = case.split_once(' ').expect(rt, "a second text");
    let first = text_of(rt, alloc, first);
    let second = text_of(rt, alloc, second);
    let (less, other) = (first < second, first != second);
    format!(in alloc; "{first} {second} {less} {other} {}", first.as_str()).expect(rt, "memory")
}

#[test]
fn keys_are_displayed(rt: HostRuntime) {
    let key = Key::parse(rt.alloc(), "a-b").expect(&rt, "a number");
    assert!(rt; key >= key);
    expect_text(&rt, key.to_string(rt.alloc()).expect(&rt, "memory"), "a-b");
}

// The text of the value, by its JSON value and as it is written at once.
fn printed(rt: &impl Abort, alloc: Global, tree: &Tree) -> String {
    let value = tree.to_value(alloc).expect(rt, "memory");
    let text = json_text(rt, alloc, value);
    let mut bytes = Vec::new(alloc);
    tree.print(alloc, &mut bytes).expect(rt, "memory");
    if bytes.as_slice() != text.as_bytes() {
        panic!(rt; "the value is written as another text");
    }
    text
}

// The text of the value's copy, which is to equal it.
fn copied_value(rt: &impl Abort, alloc: Global, tree: Tree) -> String {
    let copied = tree.copy(alloc).expect(rt, "memory");
    if !copied.equal(&tree) {
        panic!(rt; "the copy is another value");
    }
    let said = printed(rt, alloc, &copied);
    drop(copied);
    drop(tree);
    said
}

// The JSON of a value's JSON, or why it is refused.
fn value_answer(rt: &impl Abort, alloc: Global, text: &str) -> String {
    let value = Value::from_str(alloc, text).expect(rt, "JSON");
    let tree = Tree::from_value(alloc, &value);
    drop(value);
    match tree {
        Ok(tree) => copied_value(rt, alloc, tree),
        Err(fault) => refusal(rt, alloc, fault),
    }
}

// A value below this many keys.
fn nested(rt: &impl Abort, alloc: Global, value: &str, keys: usize) -> String {
    let before = repeated(rt, alloc, "{\"a\":", keys);
    let after = repeated(rt, alloc, "}", keys);
    format!(in alloc; "{before}{value}{after}").expect(rt, "memory")
}

// The answer for a value below this many keys.
fn nested_answer(rt: &impl Abort, alloc: Global, case: &str) -> String {
    let (keys, value) = case.split_once(' ').expect(rt, "a value");
    let text = nested(rt, alloc, value, keys.parse().expect(rt, "a number"));
    value_answer(rt, alloc, text.as_str())
}

// The value of a JSON text that may stand at the path.
fn value_below(rt: &impl Abort, alloc: Global, path: &Path, text: &str) -> Tree
    ensures fits { Fits path.now result }
{
    let value = Value::from_str(alloc, text).expect(rt, "JSON");
    let tree = from_value_below::<Scalar, ScalarForm>(alloc, &value, path);
    drop(value);
    tree.expect(rt, "a tree")
}

// Writes the value of a JSON text at the path.
fn put(rt: &impl Abort, alloc: Global, tree: &mut Tree, path: &str, text: &str) {
    let path = path_of(rt, alloc, path);
    let value = value_below(rt, alloc, &path, text);
    tree.set(alloc, &path, Some(value))
        .expect(rt, "a value that fits");
}

// The tree that writes leave, each a path and a JSON text.
fn left(rt: &impl Abort, alloc: Global, writes: &str) -> Tree {
    let mut tree = Tree::empty();
    for write in writes.split(';') {
        let (path, text) = write.split_once(' ').expect(rt, "a value");
        put(rt, alloc, &mut tree, path, text);
    }
    tree
}

// What stands there: a number, another scalar, an object or nothing.
fn kind_at(rt: &impl Abort, alloc: Global, tree: &Tree, path: &str) -> String {
    let path = path_of(rt, alloc, path);
    let kind = match tree.at(&path) {
        Some(found) => match found.as_scalar() {
            Some(Scalar::Int(number)) => return number.to_string(alloc).expect(rt, "memory"),
            Some(_) => "scalar",
            None => "object",
        },
        None => "nothing",
    };
    String::from_str(alloc, kind).expect(rt, "memory")
}

// What stands there, copied, as JSON.
fn copied_at(rt: &impl Abort, alloc: Global, tree: &Tree, path: &str) -> String {
    let path = path_of(rt, alloc, path);
    let copied = tree.copy_at(alloc, &path).expect(rt, "memory");
    let text = printed(rt, alloc, &copied);
    drop(copied);
    text
}

// The tree, its depth, what stands at `/` and at `/a`, and that as JSON.
fn tree_answer(rt: &impl Abort, alloc: Global, tree: &Tree) -> String {
    let json = printed(rt, alloc, tree);
    let root = kind_at(rt, alloc, tree, "/");
    let a = kind_at(rt, alloc, tree, "/a");
    let there = copied_at(rt, alloc, tree, "/a");
    format!(in alloc; "{json} {} {root} {a} {there}", tree.depth()).expect(rt, "memory")
}

// The same of the tree after the writes.
fn left_answer(rt: &impl Abort, alloc: Global, writes: &str) -> String {
    let tree = left(rt, alloc, writes);
    let said = tree_answer(rt, alloc, &tree);
    drop(tree);
    said
}

// The numbers from 0 on, this many, each at itself, but 100 at 10 and nothing at 11.
fn numbers(rt: &impl Abort, alloc: Global, count: usize) -> Tree {
    let mut tree = Tree::empty();
    for number in 0..count {
        let text = number.to_string(alloc).expect(rt, "memory");
        put(rt, alloc, &mut tree, text.as_str(), text.as_str());
    }
    put(rt, alloc, &mut tree, "/10", "100");
    put(rt, alloc, &mut tree, "/11", "null");
    tree
}

// Their JSON, a copy's.
fn numbers_answer(rt: &impl Abort, alloc: Global, case: &str) -> String {
    let tree = numbers(rt, alloc, case.parse().expect(rt, "a number"));
    copied_value(rt, alloc, tree)
}

// What a case answers in a table with this heading.
fn answer(rt: &impl Abort, alloc: Global, heading: &str, case: &str) -> String {
    match heading {
        "keys" => key_answer(rt, alloc, case),
        "paths" => path_answer(rt, alloc, case),
        "long paths" => long_path_answer(rt, alloc, case),
        "texts" => texts_answer(rt, alloc, case),
        "pairs of paths" => pair_answer(rt, alloc, case),
        "pairs of long paths" => long_pair_answer(rt, alloc, case),
        "values" => value_answer(rt, alloc, case),
        "nested values" => nested_answer(rt, alloc, case),
        "numbers" => numbers_answer(rt, alloc, case),
        "writes" => left_answer(rt, alloc, case),
        _ => panic!(rt; "no heading"),
    }
}

const KEYS: &str = "keys:
 => 2 EmptyKey
a b => a b
a/b => 4 BadKey";

const PATHS: &str = "paths:
a//b/ => /a/b
 => /
/ => /
/a.b => 4 BadKey
/a/# => 4 BadKey
x/\u{7f} => 4 BadKey
/ключ/é => /ключ/é";

const LONG_PATHS: &str = "long paths:
768 k+ => 769 bytes
769 k+ => 3 LongKey
32 /a+ => same
33 /a+ => 5 TooDeep
33 /a+/[ => 4 BadKey";

const PAIRS: &str = "pairs of paths:
/a /a/b => above, /a/a/b a/a/b 3 false, /b b 1 false
/a/b /a => below, /a/b/a a/b/a 3 false, none
/a-b /a/b => after, /a-b/a/b a-b/a/b 3 false, none
/ / => same, /  0 true, /  0 true";

const VALUES: &str = r#"values:
[1,null,2] => {"0":1,"2":2}
{"a":{},"b":[null,{"c":null}]} => null
{"b":true,"a":"x"} => {"a":"x","b":true}
9223372036854775807 => 9223372036854775807
-9223372036854775808 => -9223372036854775808
9223372036854775808 => 7 Range
18446744073709551616 => 6 NotWhole
1.0 => 6 NotWhole
1e2 => 6 NotWhole
-0 => 6 NotWhole
{"":null} => 2 EmptyKey
{"a":1.5,"b/":null} => 6 NotWhole
{"a/":null,"b":1.5} => 4 BadKey
[1,2,1.5,3,4,5,6,7,8,9,18446744073709551615] => 7 Range"#;

// Of 16 and of 17 bytes too: a text keeps up to 16 in itself.
const TEXTS: &str = "texts:
a-b a/b => a-b a/b true true a-b
0123456789abcdef 0123456789abcdefg => 0123456789abcdef 0123456789abcdefg true true 0123456789abcdef
0123456789abcdefg 0123456789abcdef => 0123456789abcdefg 0123456789abcdef false true 0123456789abcdefg
0123456789abcdefg 0123456789abcdefg => 0123456789abcdefg 0123456789abcdefg false false 0123456789abcdefg";

const WRITES: &str = r#"writes:
/a 1;/a/b null => {"a":1} 1 object 1 1
/a 1;/a/b null;/a/b true => {"a":{"b":true}} 2 object object {"b":true}
/a 1;/a/b null;/a/b true;/a/b {} => null 0 nothing nothing null"#;

const NUMBERS: &str = r#"numbers:
12 => {"0":0,"1":1,"10":100,"2":2,"3":3,"4":4,"5":5,"6":6,"7":7,"8":8,"9":9}
33 => {"0":0,"1":1,"10":100,"12":12,"13":13,"14":14,"15":15,"16":16,"17":17,"18":18,"19":19,"2":2,"20":20,"21":21,"22":22,"23":23,"24":24,"25":25,"26":26,"27":27,"28":28,"29":29,"3":3,"30":30,"31":31,"32":32,"4":4,"5":5,"6":6,"7":7,"8":8,"9":9}"#;

const LONG_PAIRS: &str = "pairs of long paths:
32 /a+ => below, 5 TooDeep, none";

#[test]
fn paths_above_a_path(rt: HostRuntime) {
    for (len, wanted) in [(0, "/"), (2, "/a/b"), (3, "/a/b/c"), (4, "/a/b/c")] {
        expect_text(&rt, first_keys(&rt, rt.alloc(), "/a/b/c", len), wanted);
    }
}

const NESTED: &str = "nested values:
33 null => null
33 1 => 5 TooDeep";

#[test]
fn scalars_are_trees(rt: HostRuntime) {
    let said = printed(&rt, rt.alloc(), &Tree::scalar(Scalar::Bool(true)));
    expect_text(&rt, said, "true");
}

#[test]
fn cases_have_their_answers(rt: HostRuntime) {
    let tables = [
        KEYS, PATHS, LONG_PATHS, TEXTS, PAIRS, LONG_PAIRS, VALUES, NESTED, NUMBERS, WRITES,
    ];
    check_tables(
        &rt,
        &tables,
        |heading, case| answer(&rt, rt.alloc(), heading, case),
    );
    assert_eq!(rt; MAX_DEPTH, 32);
}
