//! An order of cells, each behind those that it reads.
ghost use Rattle.std.specs.Prelude.{◌<◌, ◌^◌, IfOk};
ghost use Rattle.graph_order.specs.Orders.{IsOrder};
ghost use Rattle.audit_deck.specs.Broken.{IsKept};
ghost use Rattle.audit_deck.specs.Indexes.{AreInRange};
ghost use Rattle.audit_deck.specs.Loops.{AreReads, IsCellOrder};
ghost use Rattle.audit_deck.specs.Marks.{AreNetMarks};

use crate::index::Index;
use crate::marks::Marks;
use crate::numbering::Numbering;
use deck::Roles;
use dom_base::OutOfMemory;
use graph_order::{Node, Order, put_in_order};
use std::alloc::Global;

impl<'a> Index<'a> {
    /// The dynamic nets of an order of nets. The one error is out of memory.
    fn dynamic_in(
        &self,
        alloc: Global,
        roles: Roles,
        marks: &Marks,
        nodes: &[Node<'_>],
        order: &[u32],
    ) -> Result<Numbering, OutOfMemory>
        requires few { self.now.nets < 2 ^ 32 }
        requires in_range { AreInRange self.now.devices self.now.nets }
        requires marked { AreNetMarks self.now.devices roles self.now.nets marks.now }
        requires reads { AreReads self.now.devices roles self.now.nets nodes.now }
        requires ordered { IsOrder nodes.now order.now }
        ensures { IfOk result (λ cells. IsCellOrder self.now.devices roles cells.nets) }
    {
        let mut cells = Numbering::new(alloc, nodes.len() as u32)?;
        for net in order {
            if (*net as usize) < nodes.len() && marks.dynamic.has(*net) {
                cells.add(*net)?;
            }
        }
        let _once = cells.nets();
        Ok(cells)
    }

    /// The dynamic nets, each behind those that it reads, where no cell depends on itself. The time is linear
    /// in what is read. The one error is out of memory.
    pub fn cell_order(
        &self,
        alloc: Global,
        roles: Roles,
        marks: &Marks,
        nodes: &[Node<'_>],
    ) -> Result<Numbering, OutOfMemory>
        requires few { self.now.nets < 2 ^ 32 }
        requires in_range { AreInRange self.now.devices self.now.nets }
        requires marked { AreNetMarks self.now.devices roles self.now.nets marks.now }
        requires reads { AreReads self.now.devices roles self.now.nets nodes.now }
        requires kept { IsKept self.now.devices roles self.now.nets 6 }
        ensures { IfOk result (λ cells. IsCellOrder self.now.devices roles cells.nets) }
    {
        match put_in_order(alloc, nodes)? {
            Order::Of(order) => self.dynamic_in(alloc, roles, marks, nodes, order.as_slice()),
            Order::Circular => unreachable!(),
        }
    }
}
