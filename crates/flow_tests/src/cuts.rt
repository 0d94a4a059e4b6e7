// Networks that are dealt out, and their greatest loads, by hand.

use flow_dealing::cut::{Link, are_between, deal_by_cut, greatest_load};
use std::alloc::{AllocError, Global};
use std::test::Fail;

// A link between two nodes.
fn link(writer: usize, reader: usize, cost: u64) -> Link {
    Link {
        writer,
        reader,
        cost,
    }
}

// The greatest load of the dealing by a cut, if the links are between the nodes.
fn least(
    alloc: Global,
    work: &[u64],
    links: &[Link],
    threads: u8,
) -> Result<Option<u64>, AllocError> {
    let threads = usize::from(threads);
    if threads == 0 || !are_between(work.len(), links) {
        return Ok(None);
    }
    let share = deal_by_cut(alloc, work, links, threads)?;
    Ok(Some(greatest_load(work, links, &share, threads)))
}

// The greatest load of a dealing, if it has a share for each node.
fn load_of(work: &[u64], links: &[Link], share: &[u8], threads: usize) -> Option<u64> {
    if share.len() == work.len() && are_between(work.len(), links) {
        Some(greatest_load(work, links, share, threads))
    } else {
        None
    }
}

// A line of eight nodes.
fn line() -> [Link; 7] {
    [
        link(0, 1, 3),
        link(1, 2, 3),
        link(2, 3, 3),
        link(3, 4, 3),
        link(4, 5, 3),
        link(5, 6, 3),
        link(6, 7, 3),
    ]
}

#[test]
fn a_line_is_cut_in_the_middle(rt: HostRuntime) -> Result<(), Fail> {
    let turns = [0, 1, 0, 1, 0, 1, 0, 1];
    assert_eq!(rt; load_of(&[10; 8], &line(), &turns, 2), Some(61));
    assert_eq!(rt; least(rt.alloc(), &[10; 8], &line(), 2)?, Some(43));
    assert_eq!(rt; least(rt.alloc(), &[10; 8], &line(), 1)?, Some(80));
    Ok(())
}

#[test]
fn nodes_that_no_link_joins_cross_nothing(rt: HostRuntime) -> Result<(), Fail> {
    let links = [link(0, 1, 5), link(1, 2, 5), link(3, 4, 5), link(4, 5, 5)];
    let turns = [0, 1, 0, 1, 0, 1];
    assert_eq!(rt; load_of(&[4; 6], &links, &turns, 2), Some(32));
    assert_eq!(rt; least(rt.alloc(), &[4; 6], &links, 2)?, Some(12));
    Ok(())
}

#[test]
fn a_node_of_much_work_has_a_thread_alone(rt: HostRuntime) -> Result<(), Fail> {
    let work = [9, 3, 3, 3];
    let links = [link(0, 1, 1), link(1, 2, 1), link(2, 3, 1)];
    assert_eq!(rt; load_of(&work, &links, &[0, 1, 0, 1], 2), Some(15));
    assert_eq!(rt; least(rt.alloc(), &work, &links, 2)?, Some(10));
    Ok(())
}

#[test]
fn what_is_too_great_to_be_counted_is_dealt_out_too(rt: HostRuntime) -> Result<(), Fail> {
    let work = [u64::MAX, 1, u64::MAX];
    let links = [link(0, 1, u64::MAX), link(1, 1, 7)];
    assert_eq!(rt; least(rt.alloc(), &work, &links, 2)?, Some(u64::MAX));
    assert_eq!(rt; least(rt.alloc(), &[], &[], 3)?, Some(0));
    assert_eq!(rt; least(rt.alloc(), &[1], &[link(0, 1, 1)], 2)?, None);
    Ok(())
}
