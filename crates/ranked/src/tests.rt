//! The containers beside plain ones, over long runs of changes at random places.

use crate::{Queue, RankedSet};
use std::collections::BTreeSet;
use std::test::Fail;

/// The next of a row of numbers that look random.
fn next_number(number: u64) -> u64 {
    number
        .wrapping_mul(6364136223846793005)
        .wrapping_add(1442695040888963407)
}

/// Whether a queue has the items of a list, and none past its end.
fn has_all(queue: &Queue<u64>, list: &[u64]) -> bool {
    for (nth, item) in list.iter().enumerate() {
        if queue.get(nth) != Some(item) {
            return false;
        }
    }
    queue.len() == list.len() && queue.get(list.len()).is_none()
}

#[test]
fn a_queue_goes_as_a_list_does(rt: HostRuntime) -> Result<(), Fail> {
    let mut queue = Queue::new(rt.alloc());
    let mut list = Vec::new(rt.alloc());
    let mut number = 1;
    for round in 0..12000u32 {
        number = next_number(number);
        let place = (number >> 8) as usize % (list.len().min(queue.len()) + 1);
        let choice = number >> 62;
        if round < 8000 && choice < 2 {
            queue.push_back(number)?;
            list.push(number)?;
        } else if choice == 2 {
            queue.insert(place, number)?;
            list.insert(place, number)?;
        } else if place < list.len() {
            assert!(rt; queue.take(place) == Some(list.remove(place)));
        } else {
            assert!(rt; queue.take(place).is_none());
        }
        if round % 500 == 0 {
            assert!(rt; has_all(&queue, &list));
        }
    }
    assert!(rt; has_all(&queue, &list));
    for item in &list {
        assert!(rt; queue.take(0) == Some(*item));
    }
    assert!(rt; queue.is_empty() && queue.take(0).is_none());
    Ok(())
}

/// Whether a ranked set has the keys of a plain one, each at its rank, and none past its end.
fn has_same_keys(ranked: &RankedSet<u64>, plain: &BTreeSet<u64>) -> bool {
    for (rank, key) in plain.iter().enumerate() {
        if ranked.nth(rank) != Some(key) || !ranked.contains(key) {
            return false;
        }
    }
    ranked.len() == plain.len()
        && ranked.nth(plain.len()).is_none()
        && ranked.first() == plain.first()
}

#[test]
fn a_ranked_set_goes_as_a_plain_one_does(rt: HostRuntime) -> Result<(), Fail> {
    let mut ranked = RankedSet::new(rt.alloc());
    let mut plain = BTreeSet::new(rt.alloc());
    let mut number = 1;
    for round in 0..12000u32 {
        number = next_number(number);
        let key = (number >> 8) % 4000;
        let choice = number >> 62;
        if (round < 8000 && choice < 3) || choice == 0 {
            assert!(rt; ranked.insert(key)? == plain.insert(key)?);
        } else {
            assert!(rt; ranked.remove(&key) == plain.remove(&key));
        }
        assert!(rt; ranked.contains(&key) == plain.contains(&key));
        if round % 500 == 0 {
            assert!(rt; has_same_keys(&ranked, &plain));
        }
    }
    assert!(rt; has_same_keys(&ranked, &plain));
    for key in &plain {
        assert!(rt; ranked.first() == Some(key) && ranked.remove(key));
    }
    assert!(rt; ranked.is_empty() && ranked.first().is_none());
    Ok(())
}

#[test]
fn what_was_emptied_is_filled_again(rt: HostRuntime) -> Result<(), Fail> {
    let mut queue = Queue::new(rt.alloc());
    let mut set = RankedSet::new(rt.alloc());
    for round in 0..3000u64 {
        for number in 0..round % 3 + 1 {
            queue.push_back(round + number)?;
            assert!(rt; set.insert(round + number)?);
        }
        for number in 0..round % 3 + 1 {
            assert!(rt; queue.take(0) == Some(round + number));
            assert!(rt; set.remove(&(round + number)));
        }
        assert!(rt; queue.is_empty() && queue.get(0).is_none() && queue.take(0).is_none());
        assert!(rt; set.first().is_none() && !set.contains(&round) && !set.remove(&round));
    }
    Ok(())
}
