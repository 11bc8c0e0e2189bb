//! The texts of refusals that no program prints, and copies of errors.
use crate::compared::check_text;
use std::alloc::{AllocError, Global};
use std::process::Abort;
use std::test::Fail;
use zarrs_chunk_base::{BoxEndError, ConfigurationFault, PluginCreateError, Refusal};

#[test]
fn refusals_have_their_texts(rt: HostRuntime) -> Result<(), Fail> {
    let end = Refusal::Refused(BoxEndError { dimension: 0 });
    check_text(
        &rt,
        &end,
        "box end exceeds 18446744073709551615 in dimension 0",
    )?;
    let memory: Refusal<BoxEndError> = Refusal::from(AllocError);
    Ok(check_text(&rt, &memory, "out of memory")?)
}

fn x(alloc: Global) -> Result<String, AllocError> {
    String::from_str(alloc, "x")
}

/// The copy of an error has this text.
fn check_copy(
    rt: &(impl Abort + AllocGlobal),
    error: PluginCreateError,
    text: &str,
) -> Result<(), AllocError> {
    check_text(rt, &error.clone()?, text)
}

#[test]
fn errors_are_copied(rt: HostRuntime) -> Result<(), Fail> {
    let name = PluginCreateError::NameUnsupported(x(rt.alloc())?);
    check_copy(&rt, name, "name `x` is not supported")?;
    check_copy(&rt, PluginCreateError::Other(x(rt.alloc())?), "x")?;
    Ok(())
}

/// The copy of a fault has this text, behind what the error says of it.
fn check_fault(
    rt: &(impl Abort + AllocGlobal),
    fault: ConfigurationFault,
    text: &str,
) -> Result<(), AllocError> {
    check_copy(rt, PluginCreateError::ConfigurationUnsupported(fault), text)
}

#[test]
fn faults_are_copied(rt: HostRuntime) -> Result<(), Fail> {
    let unknown = ConfigurationFault::UnknownField {
        field: x(rt.alloc())?,
        expected: "`chunk_shape`",
    };
    let text = "configuration is unsupported: unknown field `x`, expected `chunk_shape`";
    check_fault(&rt, unknown, text)?;
    let missing = ConfigurationFault::MissingField { field: "x" };
    check_fault(
        &rt,
        missing,
        "configuration is unsupported: missing field `x`",
    )?;
    let wrong = ConfigurationFault::WrongValue { field: "x" };
    Ok(check_fault(
        &rt,
        wrong,
        "configuration is unsupported: wrong value in field `x`",
    )?)
}
