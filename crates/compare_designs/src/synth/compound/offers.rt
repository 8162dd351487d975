//! What a pair may do with an arm, and what its tree comes to then.
use plain_synthesis::{PlainArm, PlainBounds, PlainForest};
use std::alloc::{AllocError, Global};

/// What a simple cell costs beside the leaves and the series nodes of its tree.
pub const SIMPLE: usize = 4;

/// What a compound cell costs beside those of both trees.
pub const COMPOUND: usize = 8;

/// A height and a width of a pair's tree, with the least sum of its leaves and series nodes and of what all other cells
/// below cost.
#[derive(Clone, Copy, PartialEq, Eq)]
pub struct Shape {
    pub height: usize,
    pub width: usize,
    pub sum: usize,
}

/// What a pair does with an arm: nothing where no free edge stands there, else it keeps the pair below in a shape, or
/// cuts it.
#[derive(Clone, Copy, PartialEq, Eq)]
pub enum Choice {
    Nothing,
    Keep(Shape),
    Cut,
}

/// A choice, and the shape that it gives the arm.
#[derive(Clone, Copy)]
pub struct Offer {
    pub choice: Choice,
    pub shape: Shape,
}

/// The shapes of a pair within the bounds, and what it costs as the root of a cell.
#[derive(Drop)]
pub struct Table {
    pub shapes: Vec<Shape>,
    pub root: Root,
}

/// What a pair costs as a root, and whether its cell is a compound one.
#[derive(Clone, Copy)]
pub struct Root {
    pub cost: usize,
    pub is_compound: bool,
}

/// A leaf above cells of this cost.
fn leaf(choice: Choice, below: usize) -> Offer {
    Offer {
        choice,
        shape: Shape {
            height: 1,
            width: 1,
            sum: below.saturating_add(1),
        },
    }
}

/// All choices of an arm in order: kept shapes by rising height and then width, the cut last.
pub fn offers(
    alloc: Global,
    forest: &PlainForest,
    tables: &[Table],
    arm: PlainArm,
) -> Result<Vec<Offer>, AllocError> {
    let mut all = Vec::new(alloc);
    let Some(place) = forest.free_pair(arm) else {
        all.push(leaf(Choice::Nothing, 0))?;
        return Ok(all);
    };
    let Some(table) = tables.get(place) else {
        return Ok(all);
    };
    for shape in table.shapes.iter() {
        all.push(Offer {
            choice: Choice::Keep(*shape),
            shape: *shape,
        })?;
    }
    all.push(leaf(Choice::Cut, table.root.cost))?;
    Ok(all)
}

/// The shape of two in series or in parallel.
pub fn joined(series: bool, left: Shape, right: Shape) -> Shape {
    let sum = left.sum.saturating_add(right.sum);
    if series {
        Shape {
            height: left.height.saturating_add(right.height),
            width: left.width.max(right.width),
            sum: sum.saturating_add(1),
        }
    } else {
        Shape {
            height: left.height.max(right.height),
            width: left.width.saturating_add(right.width),
            sum,
        }
    }
}

impl Shape {
    /// Whether it is within the bounds.
    pub fn fits(self, bounds: PlainBounds) -> bool {
        self.height <= bounds.height && self.width <= bounds.width
    }
}

/// Adds a shape, in order of heights and then of widths; of two alike the lower sum stays.
pub fn add_shape(shapes: &mut Vec<Shape>, shape: Shape) -> Result<(), AllocError> {
    for old in shapes.iter_mut() {
        if old.height == shape.height && old.width == shape.width {
            old.sum = old.sum.min(shape.sum);
            return Ok(());
        }
    }
    shapes.push(shape)?;
    shapes.sort_unstable_by_key(|shape| (shape.height, shape.width));
    Ok(())
}
