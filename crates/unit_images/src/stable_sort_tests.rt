//! Tests.

use stable_sort::sort;
use std::alloc::Global;
use std::test::Fail;
use wedge_base::{Bytes, NoMemory, Procedure};

/// The procedures of these names and addresses.
fn procedures_of(alloc: Global, table: &[(&str, u32)]) -> Result<Vec<Procedure>, NoMemory> {
    let mut procedures = Vec::new(alloc);
    for (name, address) in table {
        procedures.push(Procedure {
            name: Bytes::from_slice(alloc, name.as_bytes())?,
            address: *address,
        })?;
    }
    Ok(procedures)
}

/// Whether procedures have these addresses, in this order.
fn has_addresses(procedures: &[Procedure], addresses: &[u32]) -> bool {
    procedures
        .iter()
        .map(|procedure| procedure.address)
        .eq(addresses.iter().copied())
}

#[test]
fn equal_names_keep_their_order(rt: HostRuntime) -> Result<(), Fail> {
    let table = [("b", 1), ("a", 2), ("b", 3), ("a", 4), ("B", 5), ("ab", 6)];
    let mut procedures = procedures_of(rt.alloc(), &table)?;
    sort(&mut procedures)?;
    assert!(rt; has_addresses(&procedures, &[5, 2, 4, 6, 1, 3]));
    Ok(())
}
