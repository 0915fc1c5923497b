//! Expressions, conditions and queries, which hold one another.

ghost use Rattle.std.specs.Prelude.{OnOk};
ghost use Rattle.ast.specs.Expressions.{IsCondition, IsConjunction, IsExpression, IsFactor, IsNegation, IsPredicate, IsPrimary, IsTerm, IsTest, Nested};
ghost use Rattle.ast.specs.Notation.{◌⨾◌, ◌⊳◌, ◌⊲◌, Listed, Maybe, Parenthesized, Written};
ghost use Rattle.ast.specs.Queries.{AreSelectItems, IsAddend, IsJoin, IsOperand, IsQuery, IsSelect, IsSelectItem, IsTableReference, IsTableSource};
ghost use Rattle.ast.specs.Words.{IS, NOT, NULL};
ghost use Rattle.printer.specs.Writing.{Prints};

use crate::part::{add_symbol, comparison_symbol, multiply_symbol, set_function_word};
use crate::writer::{Part, Writer};
use ast::{
    Addend, Condition, Conjunction, Expression, Factor, Join, Negation, Operand, Predicate,
    Primary, Query, Select, SelectItem, TableReference, TableSource, Term, Test,
};
use items::{Boxed, Items};
use lexer::{Kind, Symbol, Word};
use std::alloc::AllocError;

impl Writer {
    /// Writes an expression.
    #[cycle(print)]
    pub fn expression(&mut self, expression: &Expression) -> Result<(), AllocError>
        ensures { OnOk result (Prints IsExpression expression.now self.old self.new) }
    {
        self.term(&expression.first)?;
        for (operator, term) in expression.others.as_slice() {
            self.symbol(add_symbol(*operator))?;
            self.term(term)?;
        }
        Ok(())
    }

    #[cycle(print)]
    fn term(&mut self, term: &Term) -> Result<(), AllocError>
        ensures { OnOk result (Prints IsTerm term.now self.old self.new) }
    {
        self.factor(&term.first)?;
        for (operator, factor) in term.others.as_slice() {
            self.symbol(multiply_symbol(*operator))?;
            self.factor(factor)?;
        }
        Ok(())
    }

    #[cycle(print)]
    fn factor(&mut self, factor: &Factor) -> Result<(), AllocError>
        ensures { OnOk result (Prints IsFactor factor.now self.old self.new) }
    {
        self.maybe(&factor.sign)?;
        self.primary(&factor.primary)
    }

    #[cycle(print)]
    fn primary(&mut self, primary: &Primary) -> Result<(), AllocError>
        ensures { OnOk result (Prints IsPrimary primary.now self.old self.new) }
    {
        match primary {
            Primary::Number(number) => self.number(*number),
            Primary::Text(text) => self.text(text),
            Primary::Column(column) => column.write(self),
            Primary::CountRows => self.count_rows(),
            Primary::Aggregate(function, quantifier, operand) => {
                self.word(set_function_word(*function))?;
                self.symbol(Symbol::LeftParenthesis)?;
                self.maybe(quantifier)?;
                self.expression(operand.get())?;
                self.symbol(Symbol::RightParenthesis)
            }
            Primary::Parenthesized(expression) => {
                self.symbol(Symbol::LeftParenthesis)?;
                self.expression(expression.get())?;
                self.symbol(Symbol::RightParenthesis)
            }
            Primary::Subquery(query) => self.subquery(query),
        }
    }

    /// Writes a query in parentheses.
    #[cycle(print)]
    fn subquery(&mut self, query: &Boxed<Query>) -> Result<(), AllocError>
        ensures { OnOk result (Prints (λ _ inner. Parenthesized (Nested.query inner)) query.now self.old self.new) }
    {
        self.symbol(Symbol::LeftParenthesis)?;
        self.query(query.get())?;
        self.symbol(Symbol::RightParenthesis)
    }

    /// Writes a condition.
    #[cycle(print)]
    pub fn condition(&mut self, condition: &Condition) -> Result<(), AllocError>
        ensures { OnOk result (Prints IsCondition condition.now self.old self.new) }
    {
        self.conjunction(&condition.first)?;
        for conjunction in condition.others.as_slice() {
            self.word(Word::Or)?;
            self.conjunction(conjunction)?;
        }
        Ok(())
    }

    #[cycle(print)]
    fn conjunction(&mut self, conjunction: &Conjunction) -> Result<(), AllocError>
        ensures { OnOk result (Prints IsConjunction conjunction.now self.old self.new) }
    {
        self.negation(&conjunction.first)?;
        for negation in conjunction.others.as_slice() {
            self.word(Word::And)?;
            self.negation(negation)?;
        }
        Ok(())
    }

    #[cycle(print)]
    fn negation(&mut self, negation: &Negation) -> Result<(), AllocError>
        ensures { OnOk result (Prints IsNegation negation.now self.old self.new) }
    {
        self.word_if(negation.is_negated, Word::Not)?;
        self.test(&negation.test)
    }

    #[cycle(print)]
    fn test(&mut self, test: &Test) -> Result<(), AllocError>
        ensures { OnOk result (Prints IsTest test.now self.old self.new) }
    {
        self.predicate(&test.predicate)?;
        self.maybe(&test.truth)
    }

    #[cycle(print)]
    fn predicate(&mut self, predicate: &Predicate) -> Result<(), AllocError>
        ensures { OnOk result (Prints IsPredicate predicate.now self.old self.new) }
    {
        match predicate {
            Predicate::Nested(condition) => self.nested(condition),
            Predicate::Compare(left, comparison, right) => {
                self.expression(left)?;
                self.symbol(comparison_symbol(*comparison))?;
                self.expression(right)
            }
            Predicate::Between(operand, is_negated, low, high) => {
                self.expression(operand)?;
                self.word_if(*is_negated, Word::Not)?;
                self.word(Word::Between)?;
                self.expression(low)?;
                self.word(Word::And)?;
                self.expression(high)
            }
            Predicate::InList(operand, is_negated, literals) => {
                self.operand_before(operand, *is_negated, Word::In)?;
                self.list_in_parentheses(literals.as_slice())
            }
            Predicate::InQuery(operand, is_negated, query) => {
                self.operand_before(operand, *is_negated, Word::In)?;
                self.subquery(query)
            }
            Predicate::Like(operand, is_negated, pattern) => {
                self.operand_before(operand, *is_negated, Word::Like)?;
                self.expression(pattern)
            }
            Predicate::IsNull(operand, is_negated) => self.null_test(operand, *is_negated),
            Predicate::Exists(query) => {
                self.word(Word::Exists)?;
                self.subquery(query)
            }
        }
    }

    /// Writes a condition in parentheses.
    #[cycle(print)]
    fn nested(&mut self, condition: &Boxed<Condition>) -> Result<(), AllocError>
        ensures { OnOk result (Prints (λ _ inner. Parenthesized (Nested.condition inner)) condition.now self.old self.new) }
    {
        self.symbol(Symbol::LeftParenthesis)?;
        self.condition(condition.get())?;
        self.symbol(Symbol::RightParenthesis)
    }

    /// Writes an operand, perhaps NOT, and a word.
    #[cycle(print)]
    fn operand_before(
        &mut self,
        operand: &Expression,
        is_negated: bool,
        word: Word,
    ) -> Result<(), AllocError>
        ensures { OnOk result (Prints (λ limit inner. IsExpression limit inner ⨾ Written NOT ⊲ Kind.Word word) (operand.now, is_negated) self.old self.new) }
    {
        self.expression(operand)?;
        self.word_if(is_negated, Word::Not)?;
        self.word(word)
    }

    /// Writes an operand, IS, perhaps NOT, and NULL.
    #[cycle(print)]
    fn null_test(&mut self, operand: &Expression, is_negated: bool) -> Result<(), AllocError>
        ensures { OnOk result (Prints (λ limit inner. IsExpression limit inner ⨾ IS ⊳ Written NOT ⊲ NULL) (operand.now, is_negated) self.old self.new) }
    {
        self.expression(operand)?;
        self.word(Word::Is)?;
        self.word_if(is_negated, Word::Not)?;
        self.word(Word::Null)
    }

    /// Writes a query.
    #[cycle(print)]
    pub fn query(&mut self, query: &Query) -> Result<(), AllocError>
        ensures { OnOk result (Prints IsQuery query.now self.old self.new) }
    {
        self.addend(&query.first)?;
        for (operator, addend) in query.others.as_slice() {
            operator.write(self)?;
            self.addend(addend)?;
        }
        Ok(())
    }

    #[cycle(print)]
    fn addend(&mut self, addend: &Addend) -> Result<(), AllocError>
        ensures { OnOk result (Prints IsAddend addend.now self.old self.new) }
    {
        self.operand(&addend.first)?;
        for (has_all, operand) in addend.others.as_slice() {
            self.word(Word::Intersect)?;
            self.word_if(*has_all, Word::All)?;
            self.operand(operand)?;
        }
        Ok(())
    }

    #[cycle(print)]
    fn operand(&mut self, operand: &Operand) -> Result<(), AllocError>
        ensures { OnOk result (Prints IsOperand operand.now self.old self.new) }
    {
        match operand {
            Operand::Select(select) => self.select(select.get()),
            Operand::Grouped(query) => self.subquery(query),
        }
    }

    #[cycle(print)]
    fn select(&mut self, select: &Select) -> Result<(), AllocError>
        ensures { OnOk result (Prints IsSelect select.now self.old self.new) }
    {
        self.word(Word::Select)?;
        self.maybe(&select.quantifier)?;
        self.select_items(&select.items)?;
        self.word(Word::From)?;
        self.table_references(select.from.as_slice())?;
        self.filter(Word::Where, &select.filter)?;
        self.groups(select.groups.as_slice())?;
        self.filter(Word::Having, &select.having)
    }

    #[cycle(print)]
    fn select_items(&mut self, items: &Option<Items<SelectItem>>) -> Result<(), AllocError>
        ensures { OnOk result (Prints AreSelectItems items.now self.old self.new) }
    {
        let Some(items) = items else {
            return self.symbol(Symbol::Asterisk);
        };
        if let [first, others @ ..] = items.as_slice() {
            self.select_item(first)?;
            for item in others {
                self.symbol(Symbol::Comma)?;
                self.select_item(item)?;
            }
        }
        Ok(())
    }

    #[cycle(print)]
    fn select_item(&mut self, item: &SelectItem) -> Result<(), AllocError>
        ensures { OnOk result (Prints IsSelectItem item.now self.old self.new) }
    {
        self.expression(&item.value)?;
        self.maybe(&item.alias)
    }

    #[cycle(print)]
    fn table_references(&mut self, references: &[TableReference]) -> Result<(), AllocError>
        ensures { OnOk result (Prints (λ limit inner. Listed (IsTableReference limit inner)) references.now self.old self.new) }
    {
        if let [first, others @ ..] = references {
            self.table_reference(first)?;
            for reference in others {
                self.symbol(Symbol::Comma)?;
                self.table_reference(reference)?;
            }
        }
        Ok(())
    }

    #[cycle(print)]
    fn table_reference(&mut self, reference: &TableReference) -> Result<(), AllocError>
        ensures { OnOk result (Prints IsTableReference reference.now self.old self.new) }
    {
        self.table_source(&reference.first)?;
        for join in reference.joins.as_slice() {
            self.join(join)?;
        }
        Ok(())
    }

    #[cycle(print)]
    fn join(&mut self, join: &Join) -> Result<(), AllocError>
        ensures { OnOk result (Prints IsJoin join.now self.old self.new) }
    {
        match join {
            Join::Cross(source) => {
                self.word(Word::Cross)?;
                self.word(Word::Join)?;
                self.table_source(source)
            }
            Join::Inner(has_inner, source, condition) => {
                self.word_if(*has_inner, Word::Inner)?;
                self.word(Word::Join)?;
                self.table_source(source)?;
                self.word(Word::On)?;
                self.condition(condition.get())
            }
            Join::Left(has_outer, source, condition) => {
                self.word(Word::Left)?;
                self.word_if(*has_outer, Word::Outer)?;
                self.word(Word::Join)?;
                self.table_source(source)?;
                self.word(Word::On)?;
                self.condition(condition.get())
            }
        }
    }

    #[cycle(print)]
    fn table_source(&mut self, source: &TableSource) -> Result<(), AllocError>
        ensures { OnOk result (Prints IsTableSource source.now self.old self.new) }
    {
        match source {
            TableSource::Table(name, alias) => {
                self.name(name)?;
                self.maybe(alias)
            }
            TableSource::Derived(query, alias) => {
                self.subquery(query)?;
                alias.write(self)
            }
        }
    }

    /// Writes a condition after its word, or nothing.
    #[cycle(print)]
    fn filter(&mut self, word: Word, condition: &Option<Boxed<Condition>>) -> Result<(), AllocError>
        ensures { OnOk result (Prints (λ limit inner. Maybe (Kind.Word word ⊳ IsCondition limit inner)) condition.now self.old self.new) }
    {
        match condition {
            None => Ok(()),
            Some(condition) => {
                self.word(word)?;
                self.condition(condition.get())
            }
        }
    }
}
