use bp_base::{Failed, MemSink, Tree};
use bp_tree::{ReadTree, TreeKind, law_of_one_answer, law_of_texts, read_tree, write_tree};
use std::alloc::{AllocError, Global};
use std::test::Fail;

// What reading answers: the line and the kind of a fault, or none.
fn fault_of(alloc: Global, bytes: &[u8]) -> Result<Option<(u64, TreeKind)>, &'static str> {
    match read_tree(alloc, bytes) {
        Ok(_) => Ok(None),
        Err(ReadTree::Fault(fault)) => Ok(Some((fault.line, fault.kind))),
        Err(ReadTree::NoMemory) => Err("no memory"),
    }
}

#[test]
fn faults_are_the_first(rt: HostRuntime) -> Result<(), Fail> {
    let rows = [
        ("c p 1\nc q 1\n", None),
        ("c p 1\nc q 1", None),
        (
            "# star\r\nc\tp 1\r\n  c q  1 # second\r\n\r\nc r 1\nc s 1",
            None,
        ),
        ("", Some((0, TreeKind::Empty))),
        ("# no edge\n\n \t\n", Some((0, TreeKind::Empty))),
        ("r a 3\na b 2\na c 1\n", Some((0, TreeKind::RootIsLeaf))),
        ("c p 0\nc q 1\n", Some((1, TreeKind::BadLength))),
        ("c p 1001\nc q 1\n", Some((1, TreeKind::BadLength))),
        ("c p 01\nc q 1\n", Some((1, TreeKind::BadLength))),
        ("c p 1\nc q 1\nx r 1\n", Some((3, TreeKind::UnknownParent))),
        ("c p 1\nc p 2\n", Some((2, TreeKind::RepeatedName))),
        ("c c 1\n", Some((1, TreeKind::RepeatedName))),
        ("c p 1\np c 1\n", Some((2, TreeKind::RepeatedName))),
        ("c p\n", Some((1, TreeKind::WordCount))),
        ("c p 1 2\n", Some((1, TreeKind::WordCount))),
        ("c p! 1\n", Some((1, TreeKind::BadName))),
        ("c p! 0\n", Some((1, TreeKind::BadName))),
        ("\n#\nc p\u{7f} 1\n", Some((3, TreeKind::BadByte))),
        ("c p 1 #\u{7f}\nc q 1\n", None),
        ("c p 1\r\r\n", Some((1, TreeKind::BadByte))),
        ("c p 1\r#\n", Some((1, TreeKind::BadByte))),
        ("\u{7f}\n", Some((1, TreeKind::BadByte))),
        ("x\nc p\u{7f}\n", Some((1, TreeKind::WordCount))),
        ("c p 1\nx y 0\n", Some((2, TreeKind::BadLength))),
        ("c p 1\nx p 1\n", Some((2, TreeKind::UnknownParent))),
        ("c {\"edges\":[]}\n", Some((1, TreeKind::WordCount))),
        ("[{\"edges\":[]}]", Some((1, TreeKind::WordCount))),
    ];
    for (text, want) in rows {
        assert_eq!(rt; fault_of(rt.alloc(), text.as_bytes())?, want, "{text}");
    }
    Ok(())
}

#[test]
fn faults_of_the_json_form_are_the_first(rt: HostRuntime) -> Result<(), Fail> {
    let shape = Some((0, TreeKind::BadShape));
    let json = Some((0, TreeKind::BadJson));
    let rows = [
        (
            r#"{"edges":[["c","p",1],["c","q",1],["c","r",1],["c","s",1]]}"#,
            None,
        ),
        (
            "\r\n\t { \"a\" : [ ] , \"edges\" :\n[ [\"c\",\"p\",1],[\"c\",\"q\",1000] ] } \n",
            None,
        ),
        (
            r#"{"edges":7,"edges":[["c","p",1],["c","q",1]],"more":{"edges":7}}"#,
            None,
        ),
        (r#"{"edges":[["c","\u0070",1],["c","q",1]]}"#, None),
        (
            r#"{"edges":[["c","p",1.5],["c","q",1],["c","r",1],["c","s",1]]}"#,
            shape,
        ),
        (r#"{"edges":[["c","p",1.0],["c","q",1]]}"#, shape),
        (r#"{"edges":[["c","p",1e0],["c","q",1]]}"#, shape),
        (r#"{"edges":[["c","p",-1],["c","q",1]]}"#, shape),
        (
            r#"{"edges":[["c","p",18446744073709551616],["c","q",1]]}"#,
            shape,
        ),
        (r#"{"edges":[["c","p","1"],["c","q",1]]}"#, shape),
        (r#"{"edges":[["c",1,"p"],["c","q",1]]}"#, shape),
        (r#"{"edges":[["c","p"],["c","q",1]]}"#, shape),
        (r#"{"edges":[["c","p",1,1],["c","q",1]]}"#, shape),
        (r#"{"edges":[["c!","p",1],["c","q"]]}"#, shape),
        (r#"{"edges":[["c","p",1],7]}"#, shape),
        (r#"{"edges":{"c":["c","p",1]}}"#, shape),
        (r#"{"edges":[["c","p",1],["c","q",1]],"edges":7}"#, shape),
        (r#"{"Edges":[["c","p",1],["c","q",1]]}"#, shape),
        ("{}", shape),
        (r#"{"edges":["#, json),
        (r#"{"edges":[["c","p",1],["c","q",1]]}#"#, json),
        (r#"{"edges":[["c","p",1],["c","q",1]]}{}"#, json),
        (r#"{"edges":[["c","p",1],["c","q",1]],"a":"\ud800"}"#, json),
        ("{\"edges\":[[\"c\",\"p\n\",1],[\"c\",\"q\",1]]}", json),
        (r#"{"edges":[["c","p",01],["c","q",1]]}"#, json),
        (r#"{"edges":[["c","p",1],["c","q",1]],"a":1e999}"#, json),
        (r#"{"edges":[]}"#, Some((0, TreeKind::Empty))),
        (
            r#"{"edges":[["c","p",1]]}"#,
            Some((0, TreeKind::RootIsLeaf)),
        ),
        (
            r#"{"edges":[["c","p",1],["c","q r",0]]}"#,
            Some((2, TreeKind::BadName)),
        ),
        (
            r#"{"edges":[["","p",1],["c","q",1]]}"#,
            Some((1, TreeKind::BadName)),
        ),
        (
            r#"{"edges":[["c","p",1],["x","q",0]]}"#,
            Some((2, TreeKind::BadLength)),
        ),
        (
            r#"{"edges":[["c","p",1001],["c","q",1]]}"#,
            Some((1, TreeKind::BadLength)),
        ),
        (
            r#"{"edges":[["c","p",18446744073709551615],["c","q",1]]}"#,
            Some((1, TreeKind::BadLength)),
        ),
        (
            r#"{"edges":[["c","p",1],["x","p",1]]}"#,
            Some((2, TreeKind::UnknownParent)),
        ),
        (
            r#"{"edges":[["c","p",1],["p","c",1]]}"#,
            Some((2, TreeKind::RepeatedName)),
        ),
        (
            r#"{"edges":[["c","c",1],["c!","p",1]]}"#,
            Some((1, TreeKind::RepeatedName)),
        ),
    ];
    for (text, want) in rows {
        assert_eq!(rt; fault_of(rt.alloc(), text.as_bytes())?, want, "{text}");
    }
    let broken = b"{\"edges\":[[\"c\",\"p\",1],[\"c\",\"q\",1]],\"a\":\"\xff\"}";
    assert_eq!(rt; fault_of(rt.alloc(), broken)?, json);
    Ok(())
}

// A star of so many leaves, each with an edge of length 1.
fn star(alloc: Global, leaves: u64) -> Result<Vec<u8>, AllocError> {
    let mut text = Vec::new(alloc);
    for leaf in 0..leaves {
        let line = format!(in alloc; "c n{leaf} 1\n")?;
        text.extend_from_slice(line.as_bytes())?;
    }
    Ok(text)
}

// The same star in the JSON form.
fn json_star(alloc: Global, leaves: u64) -> Result<Vec<u8>, AllocError> {
    let mut text = Vec::new(alloc);
    text.extend_from_slice(b"{\"edges\":[[\"c\",\"n0\",1]")?;
    for leaf in 1..leaves {
        let element = format!(in alloc; ",[\"c\",\"n{leaf}\",1]")?;
        text.extend_from_slice(element.as_bytes())?;
    }
    text.extend_from_slice(b"]}")?;
    Ok(text)
}

#[test]
fn limits_of_a_tree(rt: HostRuntime) -> Result<(), Fail> {
    let rows = [
        (32, None),
        (33, Some((0, TreeKind::TooManyLeaves))),
        (63, Some((0, TreeKind::TooManyLeaves))),
        (64, Some((64, TreeKind::TooManyNodes))),
    ];
    for (leaves, want) in rows {
        let text = star(rt.alloc(), leaves)?;
        assert_eq!(rt; fault_of(rt.alloc(), &text)?, want, "{leaves} leaves");
        let text = json_star(rt.alloc(), leaves)?;
        assert_eq!(rt;
            fault_of(rt.alloc(), &text)?,
            want,
            "{leaves} leaves in JSON"
        );
    }
    let mut full = star(rt.alloc(), 4)?;
    full.push(b'#')?;
    full.resize(65_536, b'.')?;
    assert_eq!(rt; fault_of(rt.alloc(), &full)?, None);
    full.push(b'.')?;
    assert_eq!(rt; fault_of(rt.alloc(), &full)?, Some((0, TreeKind::TooLong)));
    full[0] = b'{';
    assert_eq!(rt; fault_of(rt.alloc(), &full)?, Some((0, TreeKind::TooLong)));
    full.truncate(65_536);
    assert_eq!(rt; fault_of(rt.alloc(), &full)?, Some((0, TreeKind::BadJson)));
    Ok(())
}

fn tree_of(alloc: Global, bytes: &[u8]) -> Result<Tree, &'static str> {
    match read_tree(alloc, bytes) {
        Ok(tree) => Ok(tree),
        Err(_) => Err("no tree"),
    }
}

#[test]
fn trees_are_written_in_node_order(rt: HostRuntime) -> Result<(), Fail> {
    let alloc = rt.alloc();
    let tree = tree_of(
        alloc,
        b"# star\r\nc\tp 1\r\n  c q  12 # second\r\n\r\np r 1\nc s 1000",
    )?;
    assert_eq!(rt; tree.parents(), [0, 0, 0, 1, 0].as_slice());
    assert_eq!(rt; tree.lengths(), [0, 1, 12, 1, 1000].as_slice());
    let mut sink = MemSink::new(alloc, 99, 3, Vec::new(alloc))?;
    assert_eq!(rt; write_tree(&tree, &mut sink), Ok(()));
    assert_eq!(rt;
        sink.bytes.as_slice(),
        b"c p 1\nc q 12\np r 1\nc s 1000\n".as_slice()
    );
    let mut full = MemSink::new(alloc, 8, 3, Vec::new(alloc))?;
    assert_eq!(rt; write_tree(&tree, &mut full), Err(Failed));
    assert_eq!(rt; full.bytes.as_slice(), b"c p 1\nc ".as_slice());
    Ok(())
}

fn moves<T: Send>(_: &T) {}

// What is wrong may go to another thread.
fn crosses(error: &ReadTree) {
    moves(error);
}

#[test]
fn what_is_wrong_is_told(rt: HostRuntime) -> Result<(), Fail> {
    law_of_one_answer();
    law_of_texts();
    match read_tree(rt.alloc(), b"c p 1\nc p 2\n") {
        Ok(_) => Err("a tree".into()),
        Err(error) => {
            crosses(&error);
            let text = format!(in rt.alloc(); "{error}")?;
            assert_eq!(rt; text.as_str(), "line 2: RepeatedName");
            Ok(())
        }
    }
}
