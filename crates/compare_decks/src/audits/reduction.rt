//! The reduction of the links of a cell to one, without tables.
use std::alloc::{AllocError, Global};

/// A link between two nets, with the width and the height of what it stands for.
#[derive(Clone, Copy)]
pub struct Link {
    pub ends: (usize, usize),
    pub width: usize,
    pub height: usize,
}

impl Link {
    fn ends_at(self, net: usize) -> bool {
        self.ends.0 == net || self.ends.1 == net
    }

    fn joins(self, one: usize, other: usize) -> bool {
        self.ends == (one, other) || self.ends == (other, one)
    }

    fn is_loop(self) -> bool {
        self.ends.0 == self.ends.1
    }

    fn far(self, net: usize) -> usize {
        if self.ends.0 == net {
            self.ends.1
        } else {
            self.ends.0
        }
    }
}

/// Whether two links are in series at a net: both end at it once, no other link does, and it is neither end of the whole.
fn are_in_series(
    links: &[Link],
    one: Link,
    other: Link,
    outer: (usize, usize),
    net: usize,
) -> bool {
    let at_net = links.iter().filter(|link| link.ends_at(net)).count();
    let is_outer = net == outer.0 || net == outer.1;
    !is_outer
        && one.ends_at(net)
        && other.ends_at(net)
        && at_net == 2
        && !one.is_loop()
        && !other.is_loop()
}

/// The net at which two links are in series.
fn series_net(links: &[Link], one: Link, other: Link, outer: (usize, usize)) -> Option<usize> {
    if are_in_series(links, one, other, outer, one.ends.0) {
        Some(one.ends.0)
    } else if are_in_series(links, one, other, outer, one.ends.1) {
        Some(one.ends.1)
    } else {
        None
    }
}

/// Two links as one, where they are in parallel or in series.
fn merged(links: &[Link], one: Link, other: Link, outer: (usize, usize)) -> Option<Link> {
    if one.joins(other.ends.0, other.ends.1) {
        return Some(Link {
            ends: one.ends,
            width: one.width.saturating_add(other.width),
            height: one.height.max(other.height),
        });
    }
    let net = series_net(links, one, other, outer)?;
    Some(Link {
        ends: (one.far(net), other.far(net)),
        width: one.width.max(other.width),
        height: one.height.saturating_add(other.height),
    })
}

/// The first two links that are in parallel or in series, by their places, and what they become.
fn first_step(links: &[Link], outer: (usize, usize)) -> Option<(usize, usize, Link)> {
    for (place, one) in links.iter().enumerate() {
        for (before, other) in links.iter().enumerate().take(place) {
            if let Some(link) = merged(links, *one, *other, outer) {
                return Some((before, place, link));
            }
        }
    }
    None
}

/// The links but those at two places, and behind them one more.
fn with_link(
    alloc: Global,
    links: &[Link],
    (before, place): (usize, usize),
    link: Link,
) -> Result<Vec<Link>, AllocError> {
    let mut next = Vec::new(alloc);
    for (other, kept) in links.iter().enumerate() {
        if other != before && other != place {
            next.push(*kept)?;
        }
    }
    next.push(link)?;
    Ok(next)
}

/// The width and the height of links that reduce to one between a top and a bottom.
pub fn reduced(
    alloc: Global,
    links: Vec<Link>,
    top: usize,
    bottom: usize,
) -> Result<Option<(usize, usize)>, AllocError> {
    let mut left = links;
    for _ in 0..left.len() {
        match first_step(&left, (top, bottom)) {
            Some((before, place, link)) => {
                left = with_link(alloc, &left, (before, place), link)?;
            }
            None => break,
        }
    }
    Ok(match left.as_slice() {
        [link] if link.joins(top, bottom) => Some((link.width, link.height)),
        _ => None,
    })
}
