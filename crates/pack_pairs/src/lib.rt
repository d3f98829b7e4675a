// Theorems only: the distinct pairs of offset and length that a value table names, and what packing makes of the
// table and of a second area. The definitions stand in specs/.
#![tactic(auto)]
