//! The calls of all lists in their order, chained by their places.
ghost use Rattle.std.specs.Prelude.{◌≡◌, ◌+◌, Some, length, IfOk, OnOk};
ghost use Rattle.call_check.specs.Following.{AreChainsOf, AreNothing, Puts, PutsList, calls_in};

use model::Placed;
use std::alloc::{AllocError, Global};

/// A call: its list, its index there, and the number of calls up to the one before it with an equal place; 0 if there is
/// none.
#[derive(Clone, Copy)]
pub(crate) struct PositionLink {
    pub port: usize,
    pub index: usize,
    pub earlier: usize,
}

/// The calls of all lists in their order, and for each place the number of calls up to the last one with it; 0 if
/// there is none. There are as many places as calls, since there are no more changes.
#[derive(Drop)]
pub(crate) struct PositionChains {
    pub heads: Vec<usize>,
    pub links: Vec<PositionLink>,
}

/// Returns the chains of the calls of all lists.
pub(crate) fn chain(alloc: Global, lists: &[Vec<Placed>]) -> Result<PositionChains, AllocError>
    ensures { IfOk result (AreChainsOf lists.now) }
{
    let mut heads = nothing(alloc, lists)?;
    let mut links = Vec::new(alloc);
    for (port, list) in lists.iter().enumerate() {
        chain_list(&mut heads, &mut links, port, list)?;
    }
    Ok(PositionChains { heads, links })
}

/// Returns as many places as there are calls, without calls.
fn nothing(alloc: Global, lists: &[Vec<Placed>]) -> Result<Vec<usize>, AllocError>
    ensures size { IfOk result (λ heads. length heads.items ≡ length (calls_in lists.now)) }
    ensures nothing { IfOk result (λ heads. AreNothing heads.items) }
{
    let mut heads = Vec::new(alloc);
    for list in lists {
        more(&mut heads, list)?;
    }
    Ok(heads)
}

/// Adds as many places as the list has calls.
fn more(heads: &mut Vec<usize>, list: &[Placed]) -> Result<(), AllocError>
    ensures size { OnOk result (length heads.new.items ≡ length heads.old.items + length list.now) }
    ensures nothing { OnOk result (AreNothing heads.old.items → AreNothing heads.new.items) }
{
    for _ in 0..list.len() {
        heads.push(0)?;
    }
    Ok(())
}

/// Chains the calls of a list after those of the lists before it.
fn chain_list(
    heads: &mut Vec<usize>,
    links: &mut Vec<PositionLink>,
    port: usize,
    list: &[Placed],
) -> Result<(), AllocError>
    ensures { OnOk result (PutsList port list.now heads.old links.old heads.new links.new) }
{
    for (index, placed) in list.iter().enumerate() {
        put(heads, links, port, index, placed.place)?;
    }
    Ok(())
}

/// Chains one more call.
fn put(
    heads: &mut Vec<usize>,
    links: &mut Vec<PositionLink>,
    port: usize,
    index: usize,
    place: Option<u32>,
) -> Result<(), AllocError>
    ensures { OnOk result (Puts port index place heads.old links.old heads.new links.new) }
{
    match place {
        None => {
            links.push(PositionLink {
                port,
                index,
                earlier: 0,
            })?;
            Ok(())
        }
        Some(place) => put_at(heads, links, port, index, place as usize),
    }
}

/// Chains one more call with this place. A place past the last one has no chain.
fn put_at(
    heads: &mut Vec<usize>,
    links: &mut Vec<PositionLink>,
    port: usize,
    index: usize,
    place: usize,
) -> Result<(), AllocError>
    ensures { OnOk result (Puts port index (Some place) heads.old links.old heads.new links.new) }
{
    if heads.len() <= place {
        links.push(PositionLink {
            port,
            index,
            earlier: 0,
        })?;
        return Ok(());
    }
    let earlier = heads[place];
    links.push(PositionLink {
        port,
        index,
        earlier,
    })?;
    heads[place] = links.len();
    Ok(())
}
