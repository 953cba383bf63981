//! Reports of `check`, `infer` and `sweep`.
use crate::parts::{is_written, place, text_of, witness};
use gil_report::{
    Answer, Cause, Condition, Conditions, EntryMode, Head, Lack, NamedProof, NamedProofs, Question,
};
use gil_syntax::{Assertion, Assertions, Expr, Item, Param, Params, Spec, SpecSort};
use gil_values::{BinOp, Value};
use gillian_words::Language;
use pure_terms::{Choices, Sort};
use sequence::Sequence;
use std::alloc::Global;
use std::test::Fail;

fn check() -> Head {
    Head::Check {
        language: Language::While,
        bound: 20,
    }
}

#[test]
fn verified_and_depends(rt: HostRuntime) -> Result<(), Fail> {
    let alloc = rt.alloc();
    let verified = Answer::Verified(text_of(alloc, "swap")?);
    assert!(rt;
        is_written(
            alloc,
            check(),
            verified,
            "gillian check while bound 20\nswap verified\n",
            "{\"answers\":[{\"kind\":\"verified\",\"name\":\"swap\"}],\"bound\":20,\"lang\":\"while\",\"mode\":\"check\"}\n"
        )?
    );
    let depends = Answer::Unproved(
        text_of(alloc, "even")?,
        Cause::Depends(text_of(alloc, "odd")?),
    );
    assert!(rt;
        is_written(
            alloc,
            check(),
            depends,
            "gillian check while bound 20\neven unproved depends odd\n",
            "{\"answers\":[{\"kind\":\"unproved\",\"name\":\"even\",\"on\":\"odd\",\"why\":\"depends\"}],\"bound\":20,\"lang\":\"while\",\"mode\":\"check\"}\n"
        )?
    );
    Ok(())
}

#[test]
fn vacuous(rt: HostRuntime) -> Result<(), Fail> {
    let alloc = rt.alloc();
    let mut proofs = NamedProofs::new(alloc);
    proofs.push(NamedProof::Meet(0, 1, 2))?;
    proofs.push(NamedProof::Parts(3, None))?;
    let x = Expr::Name(text_of(alloc, "x")?);
    let answer = Answer::Vacuous(text_of(alloc, "f")?, NamedProof::Cases(x, proofs));
    assert!(rt;
        is_written(
            alloc,
            check(),
            answer,
            "gillian check while bound 20\nf vacuous cases x [meet 0 1 2, parts 3]\n",
            "{\"answers\":[{\"kind\":\"vacuous\",\"name\":\"f\",\"proof\":\"cases x [meet 0 1 2, parts 3]\"}],\"bound\":20,\"lang\":\"while\",\"mode\":\"check\"}\n"
        )?
    );
    Ok(())
}

#[test]
fn failing_and_lacking(rt: HostRuntime) -> Result<(), Fail> {
    let alloc = rt.alloc();
    let value = Value::Str(text_of(alloc, "zero")?);
    let fails = Answer::Unproved(
        text_of(alloc, "f")?,
        Cause::Fails(value, witness(alloc, "g", 2)?),
    );
    assert!(rt;
        is_written(
            alloc,
            check(),
            fails,
            "gillian check while bound 20\nf unproved fails \"zero\" g:2 path [1] with [n = -7]\n",
            "{\"answers\":[{\"at\":2,\"kind\":\"unproved\",\"name\":\"f\",\"path\":[1],\"proc\":\"g\",\"value\":\"\\\"zero\\\"\",\"why\":\"fails\",\"with\":[\"n = -7\"]}],\"bound\":20,\"lang\":\"while\",\"mode\":\"check\"}\n"
        )?
    );
    let lacks = Answer::Unproved(
        text_of(alloc, "odd")?,
        Cause::Lacks(Lack::CallPre, witness(alloc, "odd", 4)?),
    );
    assert!(rt;
        is_written(
            alloc,
            check(),
            lacks,
            "gillian check while bound 20\nodd unproved callpre odd:4 path [1] with [n = -7]\n",
            "{\"answers\":[{\"at\":4,\"kind\":\"unproved\",\"name\":\"odd\",\"path\":[1],\"proc\":\"odd\",\"why\":\"callpre\",\"with\":[\"n = -7\"]}],\"bound\":20,\"lang\":\"while\",\"mode\":\"check\"}\n"
        )?
    );
    Ok(())
}

/// `((v0 * v0) = 4)`
fn square(alloc: Global) -> Result<Condition, Fail> {
    let left = Expr::Op2(
        BinOp::Multiply,
        Box::new(alloc, Expr::Name(text_of(alloc, "v0")?))?,
        Box::new(alloc, Expr::Name(text_of(alloc, "v0")?))?,
    );
    let right = Expr::Lit(Value::Int(4));
    Ok(Condition::Holds(Expr::Op2(
        BinOp::Equal,
        Box::new(alloc, left)?,
        Box::new(alloc, right)?,
    )))
}

#[test]
fn undecided(rt: HostRuntime) -> Result<(), Fail> {
    let alloc = rt.alloc();
    let mut vars = Sequence::new(alloc);
    vars.push(Sort::Int)?;
    vars.push(Sort::Fresh)?;
    let mut given: Conditions = Sequence::new(alloc);
    given.push(Condition::Open(Expr::Name(text_of(alloc, "v1")?)))?;
    let mut query: Conditions = Sequence::new(alloc);
    query.push(square(alloc)?)?;
    let path: Choices = Sequence::new(alloc);
    let question = Question {
        place: place(alloc, "f", 1)?,
        path,
        vars,
        given,
        query,
        outside: 0,
    };
    let answer = Answer::Unproved(text_of(alloc, "f")?, Cause::Undecided(question));
    assert!(rt;
        is_written(
            alloc,
            check(),
            answer,
            "gillian check while bound 20\nf unproved unknown f:1 path [] vars [int, fresh] given [open(v1)] query [((v0 * v0) = 4)] outside 0\n",
            "{\"answers\":[{\"at\":1,\"given\":[\"open(v1)\"],\"kind\":\"unproved\",\"name\":\"f\",\"outside\":0,\"path\":[],\"proc\":\"f\",\"query\":[\"((v0 * v0) = 4)\"],\"vars\":[\"int\",\"fresh\"],\"why\":\"unknown\"}],\"bound\":20,\"lang\":\"while\",\"mode\":\"check\"}\n"
        )?
    );
    Ok(())
}

/// `spec f(a: sym) [] { emp }`, with the postcondition `true` where it is whole.
fn specification(alloc: Global, cut: bool) -> Result<Spec, Fail> {
    let mut params: Params = Sequence::new(alloc);
    params.push(Param {
        name: text_of(alloc, "a")?,
        sort: SpecSort::Sym,
    })?;
    let mut posts: Assertions = Sequence::new(alloc);
    if !cut {
        let mut post: Assertion = Sequence::new(alloc);
        post.push(Item::Pure(Expr::Lit(Value::Bool(true))))?;
        posts.push(post)?;
    }
    Ok(Spec {
        name: text_of(alloc, "f")?,
        params,
        logicals: Sequence::new(alloc),
        pre: Sequence::new(alloc),
        posts,
        errors: Sequence::new(alloc),
    })
}

fn infer(alloc: Global) -> Result<Head, Fail> {
    Ok(Head::Entry {
        mode: EntryMode::Infer,
        language: Language::GilRecord,
        entry: text_of(alloc, "f")?,
        bound: 1000,
    })
}

#[test]
fn found(rt: HostRuntime) -> Result<(), Fail> {
    let alloc = rt.alloc();
    let whole = Answer::Found {
        spec: specification(alloc, false)?,
        cut: false,
    };
    assert!(rt;
        is_written(
            alloc,
            infer(alloc)?,
            whole,
            "gillian infer gil-record entry f bound 1000\nspec f(a: sym) [] { emp } { true }\n",
            "{\"answers\":[{\"cut\":false,\"kind\":\"spec\",\"spec\":\"spec f(a: sym) [] { emp } { true }\"}],\"bound\":1000,\"entry\":\"f\",\"lang\":\"gil-record\",\"mode\":\"infer\"}\n"
        )?
    );
    let cut = Answer::Found {
        spec: specification(alloc, true)?,
        cut: true,
    };
    assert!(rt;
        is_written(
            alloc,
            infer(alloc)?,
            cut,
            "gillian infer gil-record entry f bound 1000\nspec f(a: sym) [] { emp } cut\n",
            "{\"answers\":[{\"cut\":true,\"kind\":\"spec\",\"spec\":\"spec f(a: sym) [] { emp }\"}],\"bound\":1000,\"entry\":\"f\",\"lang\":\"gil-record\",\"mode\":\"infer\"}\n"
        )?
    );
    Ok(())
}

#[test]
fn a_made_text(rt: HostRuntime) -> Result<(), Fail> {
    assert!(rt;
        is_written(
            rt.alloc(),
            Head::Sweep { size: 1 },
            Answer::Bytes(164),
            "gillian sweep 1\nbytes 164\n",
            "{\"answers\":[{\"bytes\":164,\"kind\":\"bytes\"}],\"mode\":\"sweep\",\"n\":1}\n"
        )?
    );
    Ok(())
}
