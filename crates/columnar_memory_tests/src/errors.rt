use columnar_memory_types::Error;
use std::alloc::Global;
use std::test::Fail;

fn text_of(alloc: Global, error: Error) -> Result<String, Error> {
    Ok(format!(in alloc; "{error}")?)
}

#[test]
fn an_error_says_what_is_wrong(rt: HostRuntime) -> Result<(), Fail> {
    let text = text_of(rt.alloc(), Error::OutOfSpec("offsets that fall"))?;
    assert_eq!(rt; text.as_str(), "Out of specification: offsets that fall");
    Ok(())
}

#[test]
fn an_error_of_other_code_has_its_text(rt: HostRuntime) -> Result<(), Fail> {
    let error = Error::from_external_error(String::from_str(rt.alloc(), "no such table")?);
    assert_eq!(rt;
        text_of(rt.alloc(), error)?.as_str(),
        "External error: no such table"
    );
    Ok(())
}
