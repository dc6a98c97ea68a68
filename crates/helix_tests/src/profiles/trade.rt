use crate::profiles::build::{Check, DAY, SECOND_OF_JANUARY, Step, Value, fields, is_good};
use crate::profiles::steps::constraints;
use helix_base::{Alphabet, Memory};
use helix_profile::{Compare, Constraints, Fields};
use helix_values::Kind;
use std::alloc::Global;
use std::test::Fail;

/// The fields of trades: an identifier, two dates, a currency, a price, a quantity, a security and
/// whether the trade is cancelled.
fn fields_of(alloc: Global) -> Result<Fields, Memory> {
    let string = Kind::Text(Alphabet::Basic);
    let all = [
        ("tradeId", string, false),
        ("tradeDate", Kind::Date, false),
        ("settleDate", Kind::Date, false),
        ("currency", string, false),
        ("price", Kind::Decimal, false),
        ("quantity", Kind::Integer, false),
        ("isin", string, true),
        ("cancelled", Kind::Boolean, true),
    ];
    fields(alloc, &all)
}

/// An identifier, and a currency of three.
fn on_texts(alloc: Global) -> Result<Constraints, Memory> {
    let digits = [(&[('0', '9')][..], 6, Some(6))];
    let currencies = [Value::Text("USD"), Value::Text("EUR"), Value::Text("GBP")];
    let all = [
        Step::Test(0, Check::Matching("TR", &digits)),
        Step::Test(3, Check::InSet(&currencies)),
    ];
    constraints(alloc, &all)
}

fn bound(field: u32, compare: Compare, value: Value<'_>) -> Step<'_> {
    Step::Test(field, Check::Bound(compare, value))
}

/// A date in a year, settled from two to five days later.
fn on_dates(alloc: Global) -> Result<Constraints, Memory> {
    let all = [
        bound(1, Compare::AtLeast, Value::Day(SECOND_OF_JANUARY)),
        bound(1, Compare::Below, Value::Day(SECOND_OF_JANUARY + 365)),
        Step::Related(2, Compare::AtLeast, 1, 2 * DAY as i128),
        Step::Related(2, Compare::AtMost, 1, 5 * DAY as i128),
    ];
    constraints(alloc, &all)
}

/// A price in hundredths and a quantity, in their ranges.
fn on_numbers(alloc: Global) -> Result<Constraints, Memory> {
    let most = Value::Whole(1_000_000);
    let all = [
        Step::Test(4, Check::OnGrid(13)),
        bound(4, Compare::Above, Value::Whole(0)),
        bound(4, Compare::AtMost, most),
        bound(5, Compare::AtLeast, Value::Whole(1)),
        bound(5, Compare::AtMost, most),
    ];
    constraints(alloc, &all)
}

fn is_currency(currency: &str) -> Step<'_> {
    Step::Test(3, Check::EqualTo(Value::Text(currency)))
}

fn is_of(country: &str) -> Step<'_> {
    Step::Test(6, Check::BeginningWith(country))
}

/// Two capital letters, nine capital letters or digits, and a digit: a security, of the country of its currency.
fn on_securities(alloc: Global) -> Result<Constraints, Memory> {
    let security = [
        (&[('A', 'Z')][..], 2, Some(2)),
        (&[('A', 'Z'), ('0', '9')][..], 9, Some(9)),
        (&[('0', '9')][..], 1, Some(1)),
    ];
    let all = [
        Step::Test(6, Check::Matching("", &security)),
        is_currency("USD"),
        is_of("US"),
        Step::If,
        is_currency("GBP"),
        is_of("GB"),
        Step::If,
    ];
    constraints(alloc, &all)
}

fn is_cancelled() -> Step<'static> {
    Step::Test(7, Check::EqualTo(Value::Flag(true)))
}

/// What is dear comes in small quantities, what has no security is cancelled, and of what is cancelled there is one.
fn on_conditions(alloc: Global) -> Result<Constraints, Memory> {
    let all = [
        bound(4, Compare::Above, Value::Whole(1000)),
        bound(5, Compare::AtMost, Value::Whole(100)),
        Step::If,
        Step::Test(6, Check::IsNull(true)),
        is_cancelled(),
        Step::If,
        is_cancelled(),
        Step::Test(5, Check::EqualTo(Value::Whole(1))),
        bound(4, Compare::AtLeast, Value::Hundredths(5)),
        Step::IfElse,
    ];
    constraints(alloc, &all)
}

fn all_constraints(alloc: Global) -> Result<Constraints, Memory> {
    let mut constraints = on_texts(alloc)?;
    constraints.append(on_dates(alloc)?)?;
    constraints.append(on_numbers(alloc)?)?;
    constraints.append(on_securities(alloc)?)?;
    constraints.append(on_conditions(alloc)?)?;
    Ok(constraints)
}

/// When it is settled, its currency, its price in hundredths, its quantity and its security.
type Trade = (i64, &'static str, i128, i128, Value<'static>);

/// A trade's cells.
fn values((settled, currency, price, quantity, isin): Trade) -> [Value<'static>; 8] {
    [
        Value::Text("TR000000"),
        Value::Day(SECOND_OF_JANUARY),
        Value::Day(SECOND_OF_JANUARY.wrapping_add(settled)),
        Value::Text(currency),
        Value::Hundredths(price),
        Value::Whole(quantity),
        isin,
        Value::Flag(false),
    ]
}

/// A good trade, and four that differ from it in one way: settled too early, dollars elsewhere, too many at this
/// price, no security.
fn trades() -> [(Trade, bool); 5] {
    let isin = Value::Text("AA0000000000");
    [
        ((2, "EUR", 5, 1, isin), true),
        ((1, "EUR", 5, 1, isin), false),
        ((2, "USD", 5, 1, isin), false),
        ((2, "EUR", 100_001, 101, isin), false),
        ((2, "EUR", 5, 1, Value::Null), false),
    ]
}

#[test]
fn good_trades(rt: HostRuntime) -> Result<(), Fail> {
    let fields = fields_of(rt.alloc())?;
    let constraints = all_constraints(rt.alloc())?;
    for (trade, want) in trades() {
        let (settled, currency, ..) = trade;
        let good = is_good(rt.alloc(), &fields, &constraints, &values(trade))?;
        assert_eq!(rt; good, want, "settled after {settled}, {currency}");
    }
    Ok(())
}
