mod deepest_statements;
