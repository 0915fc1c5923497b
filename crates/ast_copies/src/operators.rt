//! The parts that hold no tree.

use crate::parts::{Part, both};
use ast::{Alias, Column, Literal};
use std::alloc::{AllocError, Global};

impl Part for Literal {
    fn copy(&self, alloc: Global) -> Result<Literal, AllocError> {
        match self {
            Literal::Number(sign, number) => Ok(Literal::Number(*sign, *number)),
            Literal::Text(text) => Ok(Literal::Text(text.copy(alloc)?)),
        }
    }
}

impl Part for Column {
    fn copy(&self, alloc: Global) -> Result<Column, AllocError> {
        let (table, name) = both(self.table.copy(alloc), self.name.copy(alloc))?;
        Ok(Column { table, name })
    }
}

impl Part for Alias {
    fn copy(&self, alloc: Global) -> Result<Alias, AllocError> {
        let name = self.name.copy(alloc)?;
        Ok(Alias {
            has_as: self.has_as,
            name,
        })
    }
}
