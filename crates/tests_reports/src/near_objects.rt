//! Texts that are nearly the JSON of a report.
use crate::parts::read;
use report_json::{read_either, read_json};
use std::alloc::Global;
use std::test::Fail;

/// Whether the JSON is that of no report.
fn is_refused(alloc: Global, object: &str) -> Result<bool, Fail> {
    let from_json = read(read_json(alloc, object.as_bytes()))?;
    let from_either = read(read_either(alloc, object.as_bytes()))?;
    Ok(from_json.is_none() && from_either.is_none())
}

/// The one of which the others are near misses.
const REPORT: &str =
    "{\"answers\":[{\"at\":3,\"kind\":\"failed\",\"proc\":\"main\",\"value\":\"7\"}],\"bound\":9,\"entry\":\"main\",\"lang\":\"while\",\"mode\":\"run\"}\n";

#[test]
fn the_report(rt: HostRuntime) -> Result<(), Fail> {
    assert!(rt; !is_refused(rt.alloc(), REPORT)?);
    Ok(())
}

/// Texts that are the JSON of no report.
const FORM: [&str; 8] = [
    "{\"answers\":[{\"at\":3,\"kind\":\"failed\",\"proc\":\"main\",\"value\":\"7\"}],\"bound\":9,\"entry\":\"main\",\"lang\":\"while\",\"mode\":\"run\"}",
    "{\"answers\":[{\"at\":3,\"kind\":\"failed\",\"proc\":\"main\",\"value\":\"7\"}],\"bound\":9,\"entry\":\"main\",\"lang\":\"while\",\"mode\":\"run\"}\n ",
    "{\"answers\":[{\"at\":3,\"kind\":\"failed\",\"proc\":\"main\",\"value\":\"7\"}],\"bound\":9,\"entry\":\"main\",\"lang\":\"while\",\"mode\":\"run\"}\n\n",
    "{\"answers\":[{\"at\":3,\"kind\":\"failed\",\"proc\":\"main\",\"value\":\"7\"}],\"bound\":9,\"entry\":\"main\",\"lang\":\"while\",\"mode\":\"run\"}\n{\"answers\":[{\"at\":3,\"kind\":\"failed\",\"proc\":\"main\",\"value\":\"7\"}],\"bound\":9,\"entry\":\"main\",\"lang\":\"while\",\"mode\":\"run\"}\n",
    " {\"answers\":[{\"at\":3,\"kind\":\"failed\",\"proc\":\"main\",\"value\":\"7\"}],\"bound\":9,\"entry\":\"main\",\"lang\":\"while\",\"mode\":\"run\"}\n",
    "",
    "[]\n",
    "7\n",
];

#[test]
fn form(rt: HostRuntime) -> Result<(), Fail> {
    for object in FORM {
        assert!(rt; is_refused(rt.alloc(), object)?, "of {object}");
    }
    Ok(())
}

/// Texts that are the JSON of no report.
const KEYS: [&str; 10] = [
    "{\"answers\":[],\"answers\":[{\"at\":3,\"kind\":\"failed\",\"proc\":\"main\",\"value\":\"7\"}],\"bound\":9,\"entry\":\"main\",\"lang\":\"while\",\"mode\":\"run\"}\n",
    "{\"answers\":[{\"at\":3,\"kind\":\"failed\",\"kind\":\"failed\",\"proc\":\"main\",\"value\":\"7\"}],\"bound\":9,\"entry\":\"main\",\"lang\":\"while\",\"mode\":\"run\"}\n",
    "{\"answers\":[{\"at\":3,\"kind\":\"failed\",\"proc\":\"main\",\"value\":\"7\"}],\"bound\":9,\"entry\":\"main\",\"mode\":\"run\",\"lang\":\"while\"}\n",
    "{\"answers\":[{\"kind\":\"failed\",\"at\":3,\"proc\":\"main\",\"value\":\"7\"}],\"bound\":9,\"entry\":\"main\",\"lang\":\"while\",\"mode\":\"run\"}\n",
    "{\"answers\":[{\"at\":3,\"kind\":\"failed\",\"proc\":\"main\",\"value\":\"7\"}],\"bound\":9,\"entry\":\"main\",\"lang\":\"while\",\"mode\":\"run\",\"more\":1}\n",
    "{\"answers\":[{\"at\":3,\"kind\":\"failed\",\"proc\":\"main\",\"value\":\"7\",\"with\":[]}],\"bound\":9,\"entry\":\"main\",\"lang\":\"while\",\"mode\":\"run\"}\n",
    "{\"answers\":[{\"at\":3,\"kind\":\"failed\",\"proc\":\"main\",\"value\":\"7\"}],\"entry\":\"main\",\"lang\":\"while\",\"mode\":\"run\"}\n",
    "{\"answers\":[{\"at\":3,\"kind\":\"failed\",\"value\":\"7\"}],\"bound\":9,\"entry\":\"main\",\"lang\":\"while\",\"mode\":\"run\"}\n",
    "{\"answers\":[{\"at\":3,\"kind\":\"failed\",\"proc\":\"main\",\"value\":\"7\"}],\"bound\":9,\"entry\":\"main\",\"lang\":\"while\",\"Mode\":\"run\"}\n",
    "{\"answers\":[{\"at\":3,\"kind\":\"failed\",\"proc\":\"main\",\"value\":\"7\"}],\"bound\": 9,\"entry\":\"main\",\"lang\":\"while\",\"mode\":\"run\"}\n",
];

#[test]
fn keys(rt: HostRuntime) -> Result<(), Fail> {
    for object in KEYS {
        assert!(rt; is_refused(rt.alloc(), object)?, "of {object}");
    }
    Ok(())
}

/// Texts that are the JSON of no report.
const NUMBERS: [&str; 8] = [
    "{\"answers\":[{\"at\":3,\"kind\":\"failed\",\"proc\":\"main\",\"value\":\"7\"}],\"bound\":9.0,\"entry\":\"main\",\"lang\":\"while\",\"mode\":\"run\"}\n",
    "{\"answers\":[{\"at\":3,\"kind\":\"failed\",\"proc\":\"main\",\"value\":\"7\"}],\"bound\":-9,\"entry\":\"main\",\"lang\":\"while\",\"mode\":\"run\"}\n",
    "{\"answers\":[{\"at\":3,\"kind\":\"failed\",\"proc\":\"main\",\"value\":\"7\"}],\"bound\":9e0,\"entry\":\"main\",\"lang\":\"while\",\"mode\":\"run\"}\n",
    "{\"answers\":[{\"at\":3,\"kind\":\"failed\",\"proc\":\"main\",\"value\":\"7\"}],\"bound\":09,\"entry\":\"main\",\"lang\":\"while\",\"mode\":\"run\"}\n",
    "{\"answers\":[{\"at\":+3,\"kind\":\"failed\",\"proc\":\"main\",\"value\":\"7\"}],\"bound\":9,\"entry\":\"main\",\"lang\":\"while\",\"mode\":\"run\"}\n",
    "{\"answers\":[{\"at\":\"3\",\"kind\":\"failed\",\"proc\":\"main\",\"value\":\"7\"}],\"bound\":9,\"entry\":\"main\",\"lang\":\"while\",\"mode\":\"run\"}\n",
    "{\"answers\":[{\"at\":4294967296,\"kind\":\"failed\",\"proc\":\"main\",\"value\":\"7\"}],\"bound\":9,\"entry\":\"main\",\"lang\":\"while\",\"mode\":\"run\"}\n",
    "{\"answers\":[{\"at\":null,\"kind\":\"failed\",\"proc\":\"main\",\"value\":\"7\"}],\"bound\":9,\"entry\":\"main\",\"lang\":\"while\",\"mode\":\"run\"}\n",
];

#[test]
fn numbers(rt: HostRuntime) -> Result<(), Fail> {
    for object in NUMBERS {
        assert!(rt; is_refused(rt.alloc(), object)?, "of {object}");
    }
    Ok(())
}

/// Texts that are the JSON of no report.
const TEXTS: [&str; 9] = [
    "{\"answers\":[{\"at\":3,\"kind\":\"failed\",\"proc\":\"main\",\"value\":7}],\"bound\":9,\"entry\":\"main\",\"lang\":\"while\",\"mode\":\"run\"}\n",
    "{\"answers\":[{\"at\":3,\"kind\":\"Failed\",\"proc\":\"main\",\"value\":\"7\"}],\"bound\":9,\"entry\":\"main\",\"lang\":\"while\",\"mode\":\"run\"}\n",
    "{\"answers\":[{\"at\":3,\"kind\":\"found\",\"proc\":\"main\",\"value\":\"7\"}],\"bound\":9,\"entry\":\"main\",\"lang\":\"while\",\"mode\":\"run\"}\n",
    "{\"answers\":[{\"at\":3,\"kind\":\"failed\",\"proc\":\"main\",\"value\":\"7\"}],\"bound\":9,\"entry\":\"main\",\"lang\":\"while\",\"mode\":\"prove\"}\n",
    "{\"answers\":[{\"at\":3,\"kind\":\"failed\",\"proc\":\"main\",\"value\":\"7\"}],\"bound\":9,\"entry\":\"main\",\"lang\":\"While\",\"mode\":\"run\"}\n",
    "{\"answers\":[{\"at\":3,\"kind\":\"failed\",\"proc\":\"main\",\"value\":\"7\"}],\"bound\":9,\"entry\":\"\\u006dain\",\"lang\":\"while\",\"mode\":\"run\"}\n",
    "{\"answers\":[{\"at\":3,\"kind\":\"failed\",\"proc\":\"1main\",\"value\":\"7\"}],\"bound\":9,\"entry\":\"main\",\"lang\":\"while\",\"mode\":\"run\"}\n",
    "{\"answers\":[{\"at\":3,\"kind\":\"failed\",\"proc\":\"main\",\"value\":\"07\"}],\"bound\":9,\"entry\":\"main\",\"lang\":\"while\",\"mode\":\"run\"}\n",
    "{\"answers\":[{\"at\":3,\"kind\":\"failed\",\"proc\":\"main\",\"value\":\"7 \"}],\"bound\":9,\"entry\":\"main\",\"lang\":\"while\",\"mode\":\"run\"}\n",
];

#[test]
fn texts(rt: HostRuntime) -> Result<(), Fail> {
    for object in TEXTS {
        assert!(rt; is_refused(rt.alloc(), object)?, "of {object}");
    }
    Ok(())
}

/// Texts that are the JSON of no report.
const MARKS: [&str; 5] = [
    "{\"answers\":[{\"cut\":false,\"kind\":\"spec\",\"spec\":\"spec f() [] { emp }\"}],\"bound\":1000,\"entry\":\"f\",\"lang\":\"gil-record\",\"mode\":\"infer\"}\n",
    "{\"answers\":[{\"cut\":true,\"kind\":\"spec\",\"spec\":\"spec f() [] { emp } { emp }\"}],\"bound\":1000,\"entry\":\"f\",\"lang\":\"gil-record\",\"mode\":\"infer\"}\n",
    "{\"answers\":[{\"cut\":false,\"kind\":\"spec\",\"spec\":\"spec f() [] { emp } cut\"}],\"bound\":1000,\"entry\":\"f\",\"lang\":\"gil-record\",\"mode\":\"infer\"}\n",
    "{\"answers\":[{\"cut\":\"true\",\"kind\":\"spec\",\"spec\":\"spec f() [] { emp }\"}],\"bound\":1000,\"entry\":\"f\",\"lang\":\"gil-record\",\"mode\":\"infer\"}\n",
    "{\"answers\":[{\"kind\":\"spec\",\"spec\":\"spec f() [] { emp } { emp }\"}],\"bound\":1000,\"entry\":\"f\",\"lang\":\"gil-record\",\"mode\":\"infer\"}\n",
];

#[test]
fn marks(rt: HostRuntime) -> Result<(), Fail> {
    for object in MARKS {
        assert!(rt; is_refused(rt.alloc(), object)?, "of {object}");
    }
    Ok(())
}

/// Texts that are the JSON of no report.
const LISTS: [&str; 5] = [
    "{\"answers\":[{\"at\":4,\"inputs\":\"[10]\",\"kind\":\"bug\",\"proc\":\"main\",\"value\":\"7\"}],\"bound\":1000,\"entry\":\"main\",\"lang\":\"gil-record\",\"mode\":\"test\"}\n",
    "{\"answers\":[{\"at\":4,\"inputs\":[10],\"kind\":\"bug\",\"proc\":\"main\",\"value\":\"7\"}],\"bound\":1000,\"entry\":\"main\",\"lang\":\"gil-record\",\"mode\":\"test\"}\n",
    "{\"answers\":[{\"kind\":\"sat\",\"with\":[\"x = 1, y = 2\"]}],\"lang\":\"atoms\",\"mode\":\"solve\"}\n",
    "{\"answers\":[{\"at\":4,\"kind\":\"unproved\",\"name\":\"f\",\"path\":[\"1\"],\"proc\":\"f\",\"why\":\"post\",\"with\":[]}],\"bound\":1000,\"lang\":\"while\",\"mode\":\"check\"}\n",
    "{\"answers\":{\"kind\":\"clean\"},\"bound\":9,\"entry\":\"main\",\"lang\":\"while\",\"mode\":\"test\"}\n",
];

#[test]
fn lists(rt: HostRuntime) -> Result<(), Fail> {
    for object in LISTS {
        assert!(rt; is_refused(rt.alloc(), object)?, "of {object}");
    }
    Ok(())
}
