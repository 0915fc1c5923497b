//! Expressions, conditions and queries, which hold one another.

ghost use Rattle.std.specs.Prelude.{◌∷◌, ◌++◌, [], map, OnOk};
ghost use Rattle.std.specs.Option.{option_map};
ghost use Rattle.ast.specs.Words.{IS, NOT, NULL};
ghost use Rattle.typing.specs.Printed.{condition_tokens, items_tokens};
ghost use Rattle.typing.specs.Tokens.{if_written, in_parentheses, listed, literal_tokens, maybe};
ghost use Rattle.condition_printer.specs.Trees.{Puts, addend_tokens, conjunction_tokens, expression_tokens, factor_tokens, item_tokens, join_tokens, negation_tokens, operand_tokens, predicate_tokens, primary_tokens, query_tokens, reference_tokens, select_tokens, source_tokens, term_tokens, test_tokens};

use crate::part::{add_symbol, comparison_symbol, multiply_symbol, set_function_word};
use crate::writer::{Part, Writer};
use ast::{
    Addend, Condition, Conjunction, Expression, Factor, Join, Literal, Negation, Operand,
    Predicate, Primary, Query, Select, SelectItem, TableReference, TableSource, Term, Test,
};
use items::{Boxed, Items};
use lexer::{Kind, Symbol, Word};
use std::alloc::AllocError;

impl Writer {
    /// Writes an expression.
    #[cycle(texts)]
    fn expression(&mut self, expression: &Expression) -> Result<(), AllocError>
        ensures { OnOk result (Puts (expression_tokens expression.now) self.old self.new) }
    {
        self.term(&expression.first)?;
        for (operator, term) in expression.others.as_slice() {
            self.symbol(add_symbol(*operator))?;
            self.term(term)?;
        }
        Ok(())
    }

    #[cycle(texts)]
    fn term(&mut self, term: &Term) -> Result<(), AllocError>
        ensures { OnOk result (Puts (term_tokens term.now) self.old self.new) }
    {
        self.factor(&term.first)?;
        for (operator, factor) in term.others.as_slice() {
            self.symbol(multiply_symbol(*operator))?;
            self.factor(factor)?;
        }
        Ok(())
    }

    #[cycle(texts)]
    fn factor(&mut self, factor: &Factor) -> Result<(), AllocError>
        ensures { OnOk result (Puts (factor_tokens factor.now) self.old self.new) }
    {
        self.maybe(&factor.sign)?;
        self.primary(&factor.primary)
    }

    #[cycle(texts)]
    fn primary(&mut self, primary: &Primary) -> Result<(), AllocError>
        ensures { OnOk result (Puts (primary_tokens primary.now) self.old self.new) }
    {
        match primary {
            Primary::Number(number) => self.number(*number),
            Primary::Text(text) => self.text(text),
            Primary::Column(column) => column.write(self),
            Primary::CountRows => self.count_rows(),
            Primary::Aggregate(function, quantifier, operand) => {
                self.word(set_function_word(*function))?;
                self.symbol(Symbol::LeftParenthesis)?;
                self.maybe(quantifier)?;
                self.expression(operand.get())?;
                self.symbol(Symbol::RightParenthesis)
            }
            Primary::Parenthesized(expression) => {
                self.symbol(Symbol::LeftParenthesis)?;
                self.expression(expression.get())?;
                self.symbol(Symbol::RightParenthesis)
            }
            Primary::Subquery(query) => self.subquery(query),
        }
    }

    /// Writes a query in parentheses.
    #[cycle(texts)]
    fn subquery(&mut self, query: &Boxed<Query>) -> Result<(), AllocError>
        ensures { OnOk result (Puts (in_parentheses (query_tokens query.now)) self.old self.new) }
    {
        self.symbol(Symbol::LeftParenthesis)?;
        self.query(query.get())?;
        self.symbol(Symbol::RightParenthesis)
    }

    /// Writes a condition.
    #[cycle(texts)]
    pub fn condition(&mut self, condition: &Condition) -> Result<(), AllocError>
        ensures { OnOk result (Puts (condition_tokens condition.now) self.old self.new) }
    {
        self.conjunction(&condition.first)?;
        for conjunction in condition.others.as_slice() {
            self.word(Word::Or)?;
            self.conjunction(conjunction)?;
        }
        Ok(())
    }

    #[cycle(texts)]
    fn conjunction(&mut self, conjunction: &Conjunction) -> Result<(), AllocError>
        ensures { OnOk result (Puts (conjunction_tokens conjunction.now) self.old self.new) }
    {
        self.negation(&conjunction.first)?;
        for negation in conjunction.others.as_slice() {
            self.word(Word::And)?;
            self.negation(negation)?;
        }
        Ok(())
    }

    #[cycle(texts)]
    fn negation(&mut self, negation: &Negation) -> Result<(), AllocError>
        ensures { OnOk result (Puts (negation_tokens negation.now) self.old self.new) }
    {
        self.word_if(negation.is_negated, Word::Not)?;
        self.test(&negation.test)
    }

    #[cycle(texts)]
    fn test(&mut self, test: &Test) -> Result<(), AllocError>
        ensures { OnOk result (Puts (test_tokens test.now) self.old self.new) }
    {
        self.predicate(&test.predicate)?;
        self.maybe(&test.truth)
    }

    #[cycle(texts)]
    fn predicate(&mut self, predicate: &Predicate) -> Result<(), AllocError>
        ensures { OnOk result (Puts (predicate_tokens predicate.now) self.old self.new) }
    {
        match predicate {
            Predicate::Nested(condition) => self.nested(condition),
            Predicate::Compare(left, comparison, right) => {
                self.expression(left)?;
                self.symbol(comparison_symbol(*comparison))?;
                self.expression(right)
            }
            Predicate::Between(operand, is_negated, low, high) => {
                self.expression(operand)?;
                self.word_if(*is_negated, Word::Not)?;
                self.word(Word::Between)?;
                self.expression(low)?;
                self.word(Word::And)?;
                self.expression(high)
            }
            Predicate::InList(operand, is_negated, literals) => {
                self.operand_before(operand, *is_negated, Word::In)?;
                self.literals(literals.as_slice())
            }
            Predicate::InQuery(operand, is_negated, query) => {
                self.operand_before(operand, *is_negated, Word::In)?;
                self.subquery(query)
            }
            Predicate::Like(operand, is_negated, pattern) => {
                self.operand_before(operand, *is_negated, Word::Like)?;
                self.expression(pattern)
            }
            Predicate::IsNull(operand, is_negated) => self.null_test(operand, *is_negated),
            Predicate::Exists(query) => {
                self.word(Word::Exists)?;
                self.subquery(query)
            }
        }
    }

    /// Writes a list of literals in parentheses.
    fn literals(&mut self, literals: &[Literal]) -> Result<(), AllocError>
        ensures { OnOk result (Puts (in_parentheses (listed (map literal_tokens literals.now))) self.old self.new) }
    {
        self.symbol(Symbol::LeftParenthesis)?;
        self.list(literals)?;
        self.symbol(Symbol::RightParenthesis)
    }

    /// Writes a condition in parentheses.
    #[cycle(texts)]
    fn nested(&mut self, condition: &Boxed<Condition>) -> Result<(), AllocError>
        ensures { OnOk result (Puts (in_parentheses (condition_tokens condition.now)) self.old self.new) }
    {
        self.symbol(Symbol::LeftParenthesis)?;
        self.condition(condition.get())?;
        self.symbol(Symbol::RightParenthesis)
    }

    /// Writes an operand, perhaps NOT, and a word.
    #[cycle(texts)]
    fn operand_before(
        &mut self,
        operand: &Expression,
        is_negated: bool,
        word: Word,
    ) -> Result<(), AllocError>
        ensures { OnOk result (Puts (expression_tokens operand.now ++ if_written is_negated NOT ++ Kind.Word word ∷ []) self.old self.new) }
    {
        self.expression(operand)?;
        self.word_if(is_negated, Word::Not)?;
        self.word(word)
    }

    /// Writes an operand, IS, perhaps NOT, and NULL.
    #[cycle(texts)]
    fn null_test(&mut self, operand: &Expression, is_negated: bool) -> Result<(), AllocError>
        ensures { OnOk result (Puts (expression_tokens operand.now ++ IS ∷ if_written is_negated NOT ++ NULL ∷ []) self.old self.new) }
    {
        self.expression(operand)?;
        self.word(Word::Is)?;
        self.word_if(is_negated, Word::Not)?;
        self.word(Word::Null)
    }

    /// Writes a query.
    #[cycle(texts)]
    fn query(&mut self, query: &Query) -> Result<(), AllocError>
        ensures { OnOk result (Puts (query_tokens query.now) self.old self.new) }
    {
        self.addend(&query.first)?;
        for (operator, addend) in query.others.as_slice() {
            operator.write(self)?;
            self.addend(addend)?;
        }
        Ok(())
    }

    #[cycle(texts)]
    fn addend(&mut self, addend: &Addend) -> Result<(), AllocError>
        ensures { OnOk result (Puts (addend_tokens addend.now) self.old self.new) }
    {
        self.operand(&addend.first)?;
        for (has_all, operand) in addend.others.as_slice() {
            self.word(Word::Intersect)?;
            self.word_if(*has_all, Word::All)?;
            self.operand(operand)?;
        }
        Ok(())
    }

    #[cycle(texts)]
    fn operand(&mut self, operand: &Operand) -> Result<(), AllocError>
        ensures { OnOk result (Puts (operand_tokens operand.now) self.old self.new) }
    {
        match operand {
            Operand::Select(select) => self.select(select.get()),
            Operand::Grouped(query) => self.subquery(query),
        }
    }

    #[cycle(texts)]
    fn select(&mut self, select: &Select) -> Result<(), AllocError>
        ensures { OnOk result (Puts (select_tokens select.now) self.old self.new) }
    {
        self.word(Word::Select)?;
        self.maybe(&select.quantifier)?;
        self.select_items(&select.items)?;
        self.word(Word::From)?;
        self.table_references(select.from.as_slice())?;
        self.filter(Word::Where, &select.filter)?;
        self.groups(select.groups.as_slice())?;
        self.filter(Word::Having, &select.having)
    }

    #[cycle(texts)]
    fn select_items(&mut self, items: &Option<Items<SelectItem>>) -> Result<(), AllocError>
        ensures { OnOk result (Puts (items_tokens (option_map (map item_tokens) items.now)) self.old self.new) }
    {
        let Some(items) = items else {
            return self.symbol(Symbol::Asterisk);
        };
        if let [first, others @ ..] = items.as_slice() {
            self.select_item(first)?;
            for item in others {
                self.symbol(Symbol::Comma)?;
                self.select_item(item)?;
            }
        }
        Ok(())
    }

    #[cycle(texts)]
    fn select_item(&mut self, item: &SelectItem) -> Result<(), AllocError>
        ensures { OnOk result (Puts (item_tokens item.now) self.old self.new) }
    {
        self.expression(&item.value)?;
        self.maybe(&item.alias)
    }

    #[cycle(texts)]
    fn table_references(&mut self, references: &[TableReference]) -> Result<(), AllocError>
        ensures { OnOk result (Puts (listed (map reference_tokens references.now)) self.old self.new) }
    {
        if let [first, others @ ..] = references {
            self.table_reference(first)?;
            for reference in others {
                self.symbol(Symbol::Comma)?;
                self.table_reference(reference)?;
            }
        }
        Ok(())
    }

    #[cycle(texts)]
    fn table_reference(&mut self, reference: &TableReference) -> Result<(), AllocError>
        ensures { OnOk result (Puts (reference_tokens reference.now) self.old self.new) }
    {
        self.table_source(&reference.first)?;
        for join in reference.joins.as_slice() {
            self.join(join)?;
        }
        Ok(())
    }

    #[cycle(texts)]
    fn join(&mut self, join: &Join) -> Result<(), AllocError>
        ensures { OnOk result (Puts (join_tokens join.now) self.old self.new) }
    {
        match join {
            Join::Cross(source) => {
                self.word(Word::Cross)?;
                self.word(Word::Join)?;
                self.table_source(source)
            }
            Join::Inner(has_inner, source, condition) => {
                self.word_if(*has_inner, Word::Inner)?;
                self.word(Word::Join)?;
                self.table_source(source)?;
                self.word(Word::On)?;
                self.condition(condition.get())
            }
            Join::Left(has_outer, source, condition) => {
                self.word(Word::Left)?;
                self.word_if(*has_outer, Word::Outer)?;
                self.word(Word::Join)?;
                self.table_source(source)?;
                self.word(Word::On)?;
                self.condition(condition.get())
            }
        }
    }

    #[cycle(texts)]
    fn table_source(&mut self, source: &TableSource) -> Result<(), AllocError>
        ensures { OnOk result (Puts (source_tokens source.now) self.old self.new) }
    {
        match source {
            TableSource::Table(name, alias) => {
                self.name(name)?;
                self.maybe(alias)
            }
            TableSource::Derived(query, alias) => {
                self.subquery(query)?;
                alias.write(self)
            }
        }
    }

    /// Writes a condition after its word, or nothing.
    #[cycle(texts)]
    fn filter(&mut self, word: Word, condition: &Option<Boxed<Condition>>) -> Result<(), AllocError>
        ensures { OnOk result (Puts (maybe (λ ts. Kind.Word word ∷ ts) (option_map condition_tokens condition.now)) self.old self.new) }
    {
        match condition {
            None => Ok(()),
            Some(condition) => {
                self.word(word)?;
                self.condition(condition.get())
            }
        }
    }
}
