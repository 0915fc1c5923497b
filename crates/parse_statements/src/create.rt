//! CREATE and DROP.

ghost use Rattle.std.specs.Prelude.{◌≡◌, None, []};
ghost use Rattle.lexer.specs.declared.words.Word.TheVariants as w;
ghost use Rattle.parse_terminals.specs.Readers.{kinds, Finds, Gives};
ghost use Rattle.parse_terminals.specs.Readers as read;
ghost use Rattle.parse_statements.specs.ReadStatements as statements;
ghost use Rattle.parse_expressions.specs.Levels.{inner_at};

use crate::statement::Statements;
use ast::{
    ColumnConstraint, ColumnDefinition, ColumnRule, Condition, CreateIndex, CreateTable,
    ForeignKey, References, Statement, TableConstraint, TableElement, TableRule, TypeName,
};
use items::{Boxed, Items};
use lexer::{Name, Symbol, Token, Word};
use parse_terminals::{
    ParseError, after_word, listed, many, name, names, next_is_name, next_is_symbol, next_is_word,
    number, parenthesized, word,
};
use std::alloc::Global;

/// `VARYING ( number )`
#[tactic(auto, unfolding(crate::specs::ReadStatements::varying))]
fn varying(tokens: &[Token]) -> Result<(TypeName, &[Token]), ParseError>
    ensures { Gives result (statements.varying (kinds tokens.now)) }
{
    let rest = word(Word::Varying, tokens)?;
    match parenthesized(|at| number(at), rest) {
        Ok((length, rest)) => Ok((TypeName::CharacterVarying(length), rest)),
        Err(error) => Err(error),
    }
}

/// `VARCHAR ( number ) | CHARACTER VARYING ( number )`
#[tactic(auto, unfolding(crate::specs::ReadStatements::text_type))]
fn text_type(tokens: &[Token]) -> Result<(TypeName, &[Token]), ParseError>
    ensures { Gives result (statements.text_type (kinds tokens.now)) }
{
    if let Some(rest) = after_word(Word::Character, tokens) {
        return varying(rest);
    }
    let rest = word(Word::Varchar, tokens)?;
    match parenthesized(|at| number(at), rest) {
        Ok((length, rest)) => Ok((TypeName::Varchar(length), rest)),
        Err(error) => Err(error),
    }
}

/// `type`
#[tactic(auto, unfolding(crate::specs::ReadStatements::type_name))]
fn type_name(tokens: &[Token]) -> Result<(TypeName, &[Token]), ParseError>
    ensures { Gives result (statements.type_name (kinds tokens.now)) }
{
    if let Some(rest) = after_word(Word::Integer, tokens) {
        Ok((TypeName::Integer, rest))
    } else if let Some(rest) = after_word(Word::Int, tokens) {
        Ok((TypeName::Int, rest))
    } else {
        text_type(tokens)
    }
}

/// `[CONSTRAINT name]`
#[tactic(auto, unfolding(crate::specs::ReadStatements::constraint_name))]
fn constraint_name(alloc: Global, tokens: &[Token]) -> Result<(Option<Name>, &[Token]), ParseError>
    ensures { Gives result (statements.constraint_name (kinds tokens.now)) }
{
    match after_word(Word::Constraint, tokens) {
        None => Ok((None, tokens)),
        Some(rest) => {
            let (found, rest) = name(alloc, rest)?;
            Ok((Some(found), rest))
        }
    }
}

fn begins_constraint(tokens: &[Token]) -> bool
    ensures { result ≡ statements.begins_constraint (kinds tokens.now) }
{
    next_is_word(Word::Constraint, tokens)
        || next_is_word(Word::Not, tokens)
        || next_is_word(Word::Primary, tokens)
        || next_is_word(Word::Unique, tokens)
        || next_is_word(Word::References, tokens)
        || next_is_word(Word::Check, tokens)
}

fn constraint_ahead(tokens: &[Token]) -> Option<((), &[Token])>
    ensures { Finds result (statements.constraint_ahead (kinds tokens.now)) }
{
    if begins_constraint(tokens) {
        Some(((), tokens))
    } else {
        None
    }
}

/// `[( names )]`, where no other parenthesis can stand
#[tactic(auto, unfolding(crate::specs::ReadStatements::listed_names))]
fn listed_names(alloc: Global, tokens: &[Token]) -> Result<(Items<Name>, &[Token]), ParseError>
    ensures { Gives result (statements.listed_names (kinds tokens.now)) }
{
    if next_is_symbol(Symbol::LeftParenthesis, tokens) {
        parenthesized(|at| names(alloc, at), tokens)
    } else {
        Ok((Items::new(alloc), tokens))
    }
}

/// What follows REFERENCES: `name [( names )]`
#[tactic(auto, unfolding(crate::specs::ReadStatements::referenced))]
fn referenced(alloc: Global, tokens: &[Token]) -> Result<(References, &[Token]), ParseError>
    ensures { Gives result (statements.referenced (kinds tokens.now)) }
{
    let (table, rest) = name(alloc, tokens)?;
    match listed_names(alloc, rest) {
        Ok((columns, rest)) => Ok((References { table, columns }, rest)),
        Err(error) => Err(error),
    }
}

/// `REFERENCES name [( names )]`
fn referencing(alloc: Global, tokens: &[Token]) -> Result<(References, &[Token]), ParseError>
    ensures { Gives result (read.after (read.word w.References) statements.referenced (kinds tokens.now)) }
{
    let rest = word(Word::References, tokens)?;
    referenced(alloc, rest)
}

/// `( names )`
fn names_inside(alloc: Global, tokens: &[Token]) -> Result<(Items<Name>, &[Token]), ParseError>
    ensures { Gives result (read.parenthesized statements.names (kinds tokens.now)) }
{
    parenthesized(|at| names(alloc, at), tokens)
}

/// What follows FOREIGN: `KEY ( names ) REFERENCES name [( names )]`
#[tactic(auto, unfolding(crate::specs::ReadStatements::foreign_key))]
fn foreign_key(alloc: Global, tokens: &[Token]) -> Result<(ForeignKey, &[Token]), ParseError>
    ensures { Gives result (statements.foreign_key (kinds tokens.now)) }
{
    let rest = word(Word::Key, tokens)?;
    let (columns, rest) = names_inside(alloc, rest)?;
    match referencing(alloc, rest) {
        Ok((references, rest)) => Ok((
            ForeignKey {
                columns,
                references,
            },
            rest,
        )),
        Err(error) => Err(error),
    }
}

impl Statements {
    /// `CHECK ( cond )`
    #[tactic(auto, unfolding(crate::specs::ReadStatements::check))]
    fn check<'a>(&self, tokens: &'a [Token]) -> Result<(Condition, &'a [Token]), ParseError>
        ensures { Gives result (statements.check (inner_at self.now.limit self.now.depth) (kinds tokens.now)) }
    {
        let rest = word(Word::Check, tokens)?;
        parenthesized(|at| self.condition(at), rest)
    }

    /// `colrule`
    #[tactic(auto, unfolding(crate::specs::ReadStatements::column_rule))]
    fn column_rule<'a>(&self, tokens: &'a [Token]) -> Result<(ColumnRule, &'a [Token]), ParseError>
        ensures { Gives result (statements.column_rule (inner_at self.now.limit self.now.depth) (kinds tokens.now)) }
    {
        if let Some(rest) = after_word(Word::Not, tokens) {
            let rest = word(Word::Null, rest)?;
            return Ok((ColumnRule::NotNull, rest));
        }
        if let Some(rest) = after_word(Word::Primary, tokens) {
            let rest = word(Word::Key, rest)?;
            return Ok((ColumnRule::PrimaryKey, rest));
        }
        if let Some(rest) = after_word(Word::Unique, tokens) {
            return Ok((ColumnRule::Unique, rest));
        }
        if let Some(rest) = after_word(Word::References, tokens) {
            let (references, rest) = referenced(self.alloc, rest)?;
            return Ok((ColumnRule::References(references), rest));
        }
        let (condition, rest) = self.check(tokens)?;
        Ok((ColumnRule::Check(condition), rest))
    }

    /// `[CONSTRAINT name] colrule`
    #[tactic(auto, unfolding(crate::specs::ReadStatements::column_constraint))]
    fn column_constraint<'a>(
        &self,
        tokens: &'a [Token],
    ) -> Result<(ColumnConstraint, &'a [Token]), ParseError>
        ensures { Gives result (statements.column_constraint (inner_at self.now.limit self.now.depth) (kinds tokens.now)) }
    {
        let (name, rest) = constraint_name(self.alloc, tokens)?;
        let (rule, rest) = self.column_rule(rest)?;
        Ok((ColumnConstraint { name, rule }, rest))
    }

    /// `{[CONSTRAINT name] colrule}`
    fn column_constraints<'a>(
        &self,
        tokens: &'a [Token],
    ) -> Result<(Items<ColumnConstraint>, &'a [Token]), ParseError>
        ensures { Gives result (read.many None statements.constraint_ahead (λ _. statements.column_constraint (inner_at self.now.limit self.now.depth)) [] (kinds tokens.now)) }
    {
        many(
            None,
            constraint_ahead,
            |_, at| self.column_constraint(at),
            Items::new(self.alloc),
            tokens,
        )
    }

    /// `name type {[CONSTRAINT name] colrule}`
    #[tactic(auto, unfolding(crate::specs::ReadStatements::column_definition))]
    fn column_definition<'a>(
        &self,
        tokens: &'a [Token],
    ) -> Result<(ColumnDefinition, &'a [Token]), ParseError>
        ensures { Gives result (statements.column_definition (inner_at self.now.limit self.now.depth) (kinds tokens.now)) }
    {
        let (column, rest) = name(self.alloc, tokens)?;
        match type_name(rest) {
            Ok((type_name, rest)) => {
                let (constraints, rest) = self.column_constraints(rest)?;
                let definition = ColumnDefinition {
                    column,
                    type_name,
                    constraints,
                };
                Ok((definition, rest))
            }
            Err(error) => Err(error),
        }
    }

    /// `tabrule`
    #[tactic(auto, unfolding(crate::specs::ReadStatements::table_rule))]
    fn table_rule<'a>(&self, tokens: &'a [Token]) -> Result<(TableRule, &'a [Token]), ParseError>
        ensures { Gives result (statements.table_rule (inner_at self.now.limit self.now.depth) (kinds tokens.now)) }
    {
        if let Some(rest) = after_word(Word::Primary, tokens) {
            let rest = word(Word::Key, rest)?;
            let (columns, rest) = parenthesized(|at| names(self.alloc, at), rest)?;
            return Ok((TableRule::PrimaryKey(columns), rest));
        }
        if let Some(rest) = after_word(Word::Unique, tokens) {
            let (columns, rest) = parenthesized(|at| names(self.alloc, at), rest)?;
            return Ok((TableRule::Unique(columns), rest));
        }
        if let Some(rest) = after_word(Word::Foreign, tokens) {
            let (key, rest) = foreign_key(self.alloc, rest)?;
            return Ok((TableRule::ForeignKey(key), rest));
        }
        let (condition, rest) = self.check(tokens)?;
        Ok((TableRule::Check(condition), rest))
    }

    /// `[CONSTRAINT name] tabrule`
    #[tactic(auto, unfolding(crate::specs::ReadStatements::table_constraint))]
    fn table_constraint<'a>(
        &self,
        tokens: &'a [Token],
    ) -> Result<(TableConstraint, &'a [Token]), ParseError>
        ensures { Gives result (statements.table_constraint (inner_at self.now.limit self.now.depth) (kinds tokens.now)) }
    {
        let (name, rest) = constraint_name(self.alloc, tokens)?;
        let (rule, rest) = self.table_rule(rest)?;
        Ok((TableConstraint { name, rule }, rest))
    }

    /// `element`
    #[tactic(auto, unfolding(crate::specs::ReadStatements::element))]
    fn element<'a>(&self, tokens: &'a [Token]) -> Result<(TableElement, &'a [Token]), ParseError>
        ensures { Gives result (statements.element (inner_at self.now.limit self.now.depth) (kinds tokens.now)) }
    {
        if next_is_name(tokens) {
            let (column, rest) = self.column_definition(tokens)?;
            Ok((TableElement::Column(column), rest))
        } else {
            let (constraint, rest) = self.table_constraint(tokens)?;
            Ok((TableElement::Constraint(constraint), rest))
        }
    }

    /// `element {, element}`
    fn elements<'a>(
        &self,
        tokens: &'a [Token],
    ) -> Result<(Items<TableElement>, &'a [Token]), ParseError>
        ensures { Gives result (read.listed (statements.element (inner_at self.now.limit self.now.depth)) (kinds tokens.now)) }
    {
        listed(self.alloc, |at| self.element(at), tokens)
    }

    /// What follows CREATE TABLE.
    #[tactic(auto, unfolding(crate::specs::ReadStatements::create_table))]
    fn create_table<'a>(&self, tokens: &'a [Token]) -> Result<(Statement, &'a [Token]), ParseError>
        ensures { Gives result (statements.create_table (inner_at self.now.limit self.now.depth) (kinds tokens.now)) }
    {
        let (table, rest) = name(self.alloc, tokens)?;
        let (elements, rest) = parenthesized(|at| self.elements(at), rest)?;
        let statement = CreateTable { table, elements };
        Ok((
            Statement::CreateTable(Boxed::new(self.alloc, statement)?),
            rest,
        ))
    }

    /// `name ( names )`
    #[tactic(auto, unfolding(crate::specs::ReadStatements::indexed_columns))]
    fn indexed_columns<'a>(
        &self,
        tokens: &'a [Token],
    ) -> Result<((Name, Items<Name>), &'a [Token]), ParseError>
        ensures { Gives result (statements.indexed_columns (kinds tokens.now)) }
    {
        let (table, rest) = name(self.alloc, tokens)?;
        let (columns, rest) = parenthesized(|at| names(self.alloc, at), rest)?;
        Ok(((table, columns), rest))
    }

    /// `ON name ( names )`
    #[tactic(auto, unfolding(crate::specs::ReadStatements::indexed))]
    fn indexed<'a>(
        &self,
        tokens: &'a [Token],
    ) -> Result<((Name, Items<Name>), &'a [Token]), ParseError>
        ensures { Gives result (statements.indexed (kinds tokens.now)) }
    {
        let rest = word(Word::On, tokens)?;
        self.indexed_columns(rest)
    }

    /// What follows CREATE INDEX.
    #[tactic(auto, unfolding(crate::specs::ReadStatements::create_index))]
    fn create_index<'a>(&self, tokens: &'a [Token]) -> Result<(Statement, &'a [Token]), ParseError>
        ensures { Gives result (statements.create_index (kinds tokens.now)) }
    {
        let (index, rest) = name(self.alloc, tokens)?;
        let ((table, columns), rest) = self.indexed(rest)?;
        let statement = CreateIndex {
            index,
            table,
            columns,
        };
        Ok((
            Statement::CreateIndex(Boxed::new(self.alloc, statement)?),
            rest,
        ))
    }

    /// What follows CREATE.
    #[tactic(auto, unfolding(crate::specs::ReadStatements::create))]
    pub fn create<'a>(&self, tokens: &'a [Token]) -> Result<(Statement, &'a [Token]), ParseError>
        ensures { Gives result (statements.create (inner_at self.now.limit self.now.depth) (kinds tokens.now)) }
    {
        if let Some(rest) = after_word(Word::Table, tokens) {
            return self.create_table(rest);
        }
        let rest = word(Word::Index, tokens)?;
        self.create_index(rest)
    }

    /// What follows DROP.
    #[tactic(auto, unfolding(crate::specs::ReadStatements::drop))]
    pub fn drop_from<'a>(&self, tokens: &'a [Token]) -> Result<(Statement, &'a [Token]), ParseError>
        ensures { Gives result (statements.drop (kinds tokens.now)) }
    {
        if let Some(rest) = after_word(Word::Table, tokens) {
            let (table, rest) = name(self.alloc, rest)?;
            return Ok((Statement::DropTable(table), rest));
        }
        let rest = word(Word::Index, tokens)?;
        let (index, rest) = name(self.alloc, rest)?;
        Ok((Statement::DropIndex(index), rest))
    }
}
