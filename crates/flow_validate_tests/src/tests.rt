// Verdicts on class programs.

use crate::broken::{
    BLOCKS, DECLARATIONS, FILLING, HEADS, NAMED, ORDER, TYPES, VECTORS_AND_NOTHING,
};
use crate::judged::{first_misjudged, is_judged};
use crate::kept::{KEPT, WORKED};
use crate::large::{many_blocks, ordinary};
use flow_tree::fault::SourceFault;
use std::alloc::{AllocError, Global};

#[test]
fn kept(rt: HostRuntime) -> Result<(), AllocError> {
    assert_eq!(rt; first_misjudged(rt.alloc(), KEPT)?, None);
    Ok(())
}

#[test]
fn worked(rt: HostRuntime) -> Result<(), AllocError> {
    assert_eq!(rt; first_misjudged(rt.alloc(), WORKED)?, None);
    Ok(())
}

#[test]
fn declarations_and_heads(rt: HostRuntime) -> Result<(), AllocError> {
    assert_eq!(rt; first_misjudged(rt.alloc(), DECLARATIONS)?, None);
    assert_eq!(rt; first_misjudged(rt.alloc(), HEADS)?, None);
    Ok(())
}

#[test]
fn names_and_blocks(rt: HostRuntime) -> Result<(), AllocError> {
    assert_eq!(rt; first_misjudged(rt.alloc(), NAMED)?, None);
    assert_eq!(rt; first_misjudged(rt.alloc(), BLOCKS)?, None);
    Ok(())
}

#[test]
fn types(rt: HostRuntime) -> Result<(), AllocError> {
    assert_eq!(rt; first_misjudged(rt.alloc(), TYPES)?, None);
    Ok(())
}

#[test]
fn vectors_and_nothing(rt: HostRuntime) -> Result<(), AllocError> {
    assert_eq!(rt; first_misjudged(rt.alloc(), VECTORS_AND_NOTHING)?, None);
    Ok(())
}

#[test]
fn filling(rt: HostRuntime) -> Result<(), AllocError> {
    assert_eq!(rt; first_misjudged(rt.alloc(), FILLING)?, None);
    Ok(())
}

#[test]
fn order(rt: HostRuntime) -> Result<(), AllocError> {
    assert_eq!(rt; first_misjudged(rt.alloc(), ORDER)?, None);
    Ok(())
}

// How many classes are made.
fn many_made(alloc: Global) -> Result<usize, SourceFault> {
    let raw = many_blocks(alloc, 100_000)?;
    Ok(raw.classes.len())
}

fn many_are_judged(alloc: Global) -> Result<bool, SourceFault> {
    let raw = many_blocks(alloc, 100_000)?;
    Ok(is_judged(alloc, raw, None))
}

// The next test without the verdict.
#[test]
fn a_hundred_thousand_blocks_and_places_are_made(rt: HostRuntime) -> Result<(), SourceFault> {
    assert_eq!(rt; many_made(rt.alloc())?, 1);
    Ok(())
}

#[test]
fn a_hundred_thousand_blocks_and_places_are_judged(rt: HostRuntime) -> Result<(), SourceFault> {
    assert!(rt; many_are_judged(rt.alloc())?);
    Ok(())
}

// How many classes are read.
fn large_read(alloc: Global) -> Result<usize, SourceFault> {
    let raw = ordinary(alloc, 16_777_216)?;
    Ok(raw.classes.len())
}

fn large_is_judged(alloc: Global) -> Result<bool, SourceFault> {
    let raw = ordinary(alloc, 16_777_216)?;
    Ok(is_judged(alloc, raw, None))
}

// The next test without the verdict.
#[test]
fn sixteen_mebibytes_are_read(rt: HostRuntime) -> Result<(), SourceFault> {
    assert!(rt; large_read(rt.alloc())? > 1_000);
    Ok(())
}

#[test]
fn sixteen_mebibytes_are_judged(rt: HostRuntime) -> Result<(), SourceFault> {
    assert!(rt; large_is_judged(rt.alloc())?);
    Ok(())
}
