// A system worked out by hand: its contract is proved by computation from the definitions.
ghost use Rattle.df_kramer_mesner.specs.WorkedSystem.{SevenIsWorked};

fn seven_is_worked()
    ensures { SevenIsWorked }
{}

#[test]
fn triples_of_seven_have_four_rows_and_three_columns() {
    seven_is_worked();
}
