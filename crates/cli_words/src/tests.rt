use super::*;
use file_tree::Text;
use std::alloc::{AllocError, Global};

/// The words as a command line has them.
fn words_of(alloc: Global, texts: &[&str]) -> Result<Vec<String>, AllocError> {
    let mut words = Vec::new(alloc);
    for text in texts {
        words.push(String::from_str(alloc, text)?)?;
    }
    Ok(words)
}

/// The plan of words, if they are accepted.
fn plan_of(alloc: Global, texts: &[&str]) -> Result<Option<Plan>, AllocError> {
    let words = words_of(alloc, texts)?;
    match read(alloc, words.as_slice()) {
        Ok(Order::Solo(plan)) => Ok(Some(plan)),
        Ok(Order::Asm(_)) => Ok(None),
        Err(WordsFault::At(_)) => Ok(None),
        Err(WordsFault::Memory) => Err(AllocError),
    }
}

/// The plan of words that ask for an `asm`, if they are accepted.
fn asm_of(alloc: Global, texts: &[&str]) -> Result<Option<AsmPlan>, AllocError> {
    let words = words_of(alloc, texts)?;
    match read(alloc, words.as_slice()) {
        Ok(Order::Solo(_)) => Ok(None),
        Ok(Order::Asm(plan)) => Ok(Some(plan)),
        Err(WordsFault::At(_)) => Ok(None),
        Err(WordsFault::Memory) => Err(AllocError),
    }
}

/// The index of the first wrong word, if the words aren't accepted.
fn wrong_word(alloc: Global, texts: &[&str]) -> Result<Option<usize>, AllocError> {
    let words = words_of(alloc, texts)?;
    wrong_of(alloc, words.as_slice())
}

/// The same of the words of a line, with single spaces between them.
fn wrong_in(alloc: Global, line: &str) -> Result<Option<usize>, AllocError> {
    let mut words = Vec::new(alloc);
    for word in line.split(' ') {
        words.push(String::from_str(alloc, word)?)?;
    }
    wrong_of(alloc, words.as_slice())
}

fn wrong_of(alloc: Global, words: &[String]) -> Result<Option<usize>, AllocError> {
    match read(alloc, words) {
        Ok(_) => Ok(None),
        Err(WordsFault::At(index)) => Ok(Some(index)),
        Err(WordsFault::Memory) => Err(AllocError),
    }
}

/// Whether these are the texts.
fn are(texts: &[Text], wanted: &[&str]) -> bool {
    if texts.len() != wanted.len() {
        return false;
    }
    for (text, want) in texts.iter().zip(wanted) {
        if text.as_str() != *want {
            return false;
        }
    }
    true
}

#[test]
fn a_command_without_options_has_the_default_budget(rt: HostRuntime) -> Result<(), AllocError> {
    let plan = plan_of(rt.alloc(), &["solo", "F", "bin/p"])?.expect(&rt, "accepted");
    assert_eq!(rt; plan.folder.as_str(), "F");
    assert_eq!(rt; plan.program.as_str(), "bin/p");
    assert!(rt; are(plan.args.as_slice(), &[]));
    assert!(rt; are(plan.env.as_slice(), &[]));
    assert_eq!(rt; plan.budget, 4_194_304);
    assert!(rt; plan.input.is_none());
    assert!(rt; !plan.keep);
    Ok(())
}

#[test]
fn options_stand_in_any_order_and_entries_keep_theirs(rt: HostRuntime) -> Result<(), AllocError> {
    let texts = [
        "solo", "F", "p", "--env", "B=2", "--budget", "7", "--env", "A=", "--env", "K=a=b", "--",
        "x",
    ];
    let plan = plan_of(rt.alloc(), &texts)?.expect(&rt, "accepted");
    assert!(rt; are(plan.env.as_slice(), &["B=2", "A=", "K=a=b"]));
    assert_eq!(rt; plan.budget, 7);
    assert!(rt; are(plan.args.as_slice(), &["x"]));
    Ok(())
}

#[test]
fn all_words_behind_the_divider_are_the_guests(rt: HostRuntime) -> Result<(), AllocError> {
    let alloc = rt.alloc();
    let plan = plan_of(alloc, &["solo", "F", "p", "--"])?.expect(&rt, "accepted");
    assert!(rt; are(plan.args.as_slice(), &[]));
    let plan = plan_of(alloc, &["solo", "F", "p", "--", "", "-x", "--env", "=", ""])?.expect(
        &rt, "accepted",
    );
    assert!(rt; are(plan.args.as_slice(), &["", "-x", "--env", "=", ""]));
    assert!(rt; are(plan.env.as_slice(), &[]));
    let plan = plan_of(alloc, &["solo", "F", "p", "--", "--"])?.expect(&rt, "accepted");
    assert!(rt; are(plan.args.as_slice(), &["--"]));
    Ok(())
}

#[test]
fn the_first_wrong_word_of_solo_is_named(rt: HostRuntime) -> Result<(), AllocError> {
    let alloc = rt.alloc();
    assert_eq!(rt; wrong_word(alloc, &[])?, Some(0));
    // the words of each line stand between single spaces, so that two spaces have an empty word between them
    let table = [
        ("", 0),
        ("run F p", 0),
        ("solo", 1),
        ("solo ", 1),
        ("solo -F p", 1),
        ("solo F", 2),
        ("solo F ", 2),
        ("solo F ./p", 2),
        ("solo F a/../p", 2),
        ("solo F a//p", 2),
        ("solo F -p", 2),
        ("solo F p q", 3),
        ("solo F p ", 3),
        ("solo F p --budget", 4),
        ("solo F p --budget 5 --budget 6", 5),
        ("solo F p --budget 5 --env A= --budget 6", 7),
        ("solo F p --budget=5", 3),
        ("solo F p --env", 4),
        ("solo F p --env ", 4),
        ("solo F p --env =v", 4),
        ("solo F p --env =", 4),
        ("solo F p --env K", 4),
        ("solo F p --env -K=v", 4),
        ("solo F p --env --", 4),
        ("solo F p --envK=V", 3),
        ("solo F p --env=K=V", 3),
        ("solo F p --env K=v x", 5),
        ("solo F p --input", 4),
        ("solo F p --input ", 4),
        ("solo F p --input a//b", 4),
        ("solo F p --input a/..", 4),
        ("solo F p --input -a", 4),
        ("solo F p --input -- a", 4),
        ("solo F p --input=a", 3),
        ("solo F p --input a --input b", 5),
        ("solo F p --input a --keep --input a", 6),
        ("solo F p --keep --keep", 4),
        ("solo F p --keep --env K=v --keep", 6),
        ("solo F p --keep=1", 3),
        ("solo F p --keep 1", 4),
    ];
    for (line, index) in &table {
        assert_eq!(rt; wrong_in(alloc, line)?, Some(*index));
    }
    Ok(())
}

#[test]
fn the_first_wrong_word_of_asm_is_named(rt: HostRuntime) -> Result<(), AllocError> {
    let table = [
        ("as F s.s o", 0),
        ("asm", 1),
        ("asm ", 1),
        ("asm -F s.s o", 1),
        ("asm F", 2),
        ("asm F ../s.s o", 2),
        ("asm F s//t.s o", 2),
        ("asm F -s o", 2),
        ("asm F s.s", 3),
        ("asm F s.s ", 3),
        ("asm F s.s .", 3),
        ("asm F s.s ..", 3),
        ("asm F s.s a/o", 3),
        ("asm F s.s o/", 3),
        ("asm F s.s /o", 3),
        ("asm F s.s -o", 3),
        ("asm F s.s --keep", 3),
        ("asm F s.s o x", 4),
        ("asm F s.s o ", 4),
        ("asm F s.s o --", 4),
        ("asm F s.s o --keep", 4),
    ];
    for (line, index) in &table {
        assert_eq!(rt; wrong_in(rt.alloc(), line)?, Some(*index));
    }
    Ok(())
}

#[test]
fn an_asm_has_a_folder_a_source_and_a_name(rt: HostRuntime) -> Result<(), AllocError> {
    let alloc = rt.alloc();
    let plan = asm_of(alloc, &["asm", "F/G", "a/b.s", "o.elf"])?.expect(&rt, "accepted");
    assert_eq!(rt; plan.folder.as_str(), "F/G");
    assert_eq!(rt; plan.source.as_str(), "a/b.s");
    assert_eq!(rt; plan.out.as_str(), "o.elf");
    Ok(())
}

#[test]
fn an_input_and_keep_stand_among_the_options(rt: HostRuntime) -> Result<(), AllocError> {
    let alloc = rt.alloc();
    let texts = [
        "solo", "F", "p", "--keep", "--env", "A=1", "--input", "in/a.txt", "--budget", "7", "--",
        "--keep",
    ];
    let plan = plan_of(alloc, &texts)?.expect(&rt, "accepted");
    assert!(rt; plan.keep);
    assert!(rt; are(plan.args.as_slice(), &["--keep"]));
    assert!(rt; are(plan.env.as_slice(), &["A=1"]));
    assert_eq!(rt; plan.budget, 7);
    let input = plan.input.expect(&rt, "given");
    assert_eq!(rt; input.as_str(), "in/a.txt");
    Ok(())
}

#[test]
fn a_budget_is_at_most_33554432(rt: HostRuntime) -> Result<(), AllocError> {
    let alloc = rt.alloc();
    let plan = plan_of(alloc, &["solo", "F", "p", "--budget", "33554432"])?.expect(&rt, "accepted");
    assert_eq!(rt; plan.budget, 33_554_432);
    let plan = plan_of(alloc, &["solo", "F", "p", "--budget", "0"])?.expect(&rt, "accepted");
    assert_eq!(rt; plan.budget, 0);
    assert_eq!(rt;
        wrong_word(alloc, &["solo", "F", "p", "--budget", "33554433"])?,
        Some(4)
    );
    Ok(())
}

#[test]
fn a_budget_is_digits_without_a_zero_in_front(rt: HostRuntime) -> Result<(), AllocError> {
    let bad = [
        "",
        "05",
        "00",
        "+5",
        "-5",
        "5x",
        "x",
        "0x5",
        " 5",
        "4294967296",
        "4294967301",
        "100000000000000000000000000005",
        "--",
    ];
    for value in &bad {
        assert_eq!(rt;
            wrong_word(rt.alloc(), &["solo", "F", "p", "--budget", value])?,
            Some(4)
        );
    }
    Ok(())
}

#[test]
fn the_65th_entry_is_wrong_at_its_name(rt: HostRuntime) -> Result<(), AllocError> {
    let alloc = rt.alloc();
    let mut words = words_of(alloc, &["solo", "F", "p"])?;
    for _ in 0..64 {
        words.push(String::from_str(alloc, "--env")?)?;
        words.push(String::from_str(alloc, "K=v")?)?;
    }
    assert_eq!(rt; wrong_of(alloc, words.as_slice())?, None);
    words.push(String::from_str(alloc, "--env")?)?;
    assert_eq!(rt; wrong_of(alloc, words.as_slice())?, Some(131));
    words.push(String::from_str(alloc, "K=v")?)?;
    assert_eq!(rt; wrong_of(alloc, words.as_slice())?, Some(131));
    Ok(())
}

#[test]
fn the_laws_can_be_called_for_nothing() {
    laws();
}
