mod callers;
mod comparisons;
mod plain_designs;
mod worked_designs;
