//! A small game, and what is told of it by another planner, which shares no code with this one.

pub const DUMP: &str =
    "{\"character\":{\"character\":{\"crafting_categories\":[\"crafting\"],\"mining_categories\":[\"basic-solid\"]}},\"item\":{\"ore\":{},\"plate\":{},\"#1\":{}},\"fluid\":{\"water\":{}},\"recipe\":{\"plate\":{\"ingredients\":[[\"ore\",1]],\"result\":\"plate\"},\"later\":{\"enabled\":false,\"ingredients\":[[\"plate\",1]],\"result\":\"#1\"}},\"resource\":{\"ore\":{\"autoplace\":{},\"minable\":{\"mining_time\":1,\"result\":\"ore\"}}},\"furnace\":{\"f\":{\"crafting_speed\":1,\"crafting_categories\":[\"smelting\"],\"energy_usage\":\"90kW\",\"energy_source\":{\"type\":\"electric\"}}},\"technology\":{\"t\":{\"effects\":[{\"type\":\"unlock-recipe\",\"recipe\":\"later\"}],\"unit\":{\"count\":1,\"time\":1,\"ingredients\":[]}}}}";

/// Questions about what is reached.
pub const SCRIPT: &str =
    "reach source:ore\nreach item:ore\nreach recipe:plate\nreach item:plate\r\nreach tech:t\nreach item:#1\nreach fluid:water\nreach machine:f\nreach special:character\nreach special:heat\n";

pub const REPORT: &str =
    "1 reach source:ore rank 2\n2 reach item:ore rank 3\n3 reach recipe:plate rank 4\n4 reach item:plate rank 5\n5 reach tech:t no\n6 reach item:#1 no\n7 reach fluid:water no\n8 reach machine:f no\n9 reach special:character rank 1\n10 reach special:heat no\n";

/// Edits, milestones, batches, undo and questions.
pub const EDITS: &str =
    "# what is reached, what is changed, and what that does\nreach item:plate\nwhy item:plate\nmissing item:#1\nmilestone item:ore\nmilestone tech:t\ngrant tech:t\nmask item:#1\nmask item:plate\nlist recipe\nsummary\nbatch\nforbid source:ore\nunmilestone tech:t\nend\nreach item:plate\nmissing item:ore\nundo\nmask item:#1\nbatch\ngrant item:ore\ngrant item:none\ngrant tech:t\nend\nundo\nundo\nundo\nredo\nmilestones\nsummary\nquiet on\ngrant machine:f\nreach machine:f\ntime recipe:plate 1/2\nrevoke machine:f\nbatch\ncancel\nmissing item:\n";

pub const EDITS_REPORT: &str =
    "2 reach item:plate rank 5\n3 why item:plate\n  special:character rank 1\n  source:ore rank 2\n  item:ore rank 3\n  recipe:plate rank 4\n  item:plate rank 5\n4 missing item:#1\n  any recipe:later\n5 ok\n6 ok\n7 ok\n8 mask item:#1 item:ore tech:t\n9 mask item:plate item:ore\n10 list recipe 2\n  recipe:plate rank 4\n  recipe:later rank 6\n11 summary reached 8 of 12 milestones 2 bits 8 tables 0 done 3 undone 0\n12 ok\n13 held\n14 refused H3\n15 ok\n16 reach item:plate no\n17 missing item:ore\n  any source:ore\n18 ok\n19 mask item:#1 item:ore tech:t\n20 ok\n21 held\n22 held\n23 held\n24 refused X1 item:none at 22\n25 ok\n26 ok\n27 ok\n28 ok\n29 milestones 1\n  item:ore\n30 summary reached 5 of 12 milestones 1 bits 3 tables 0 done 1 undone 3\n33 reach machine:f rank 1\n34 refused X2\n38 refused X1 item:\n";

/// A table with its plans, a refused row, and undo.
pub const TABLES: &str =
    "table t\nwant t item:ore 2\nsolve t\nimport t item:ore 3/2\nsolve t\nrate t a\nrow t a recipe:plate by machine:f\nundo\nsolve t\n";

pub const TABLES_REPORT: &str =
    "1 ok\n2 ok\n3 infeasible t\n  price item:ore 1\n4 ok\n5 plan t cost 3\n  import item:ore 2\n  price item:ore 3/2\n  total power 0 drain 0 beacons 0 pollution 0\n6 refused P1 a\n7 refused K1\n8 ok\n9 infeasible t\n  price item:ore 1\n";

/// What is told of the lines of the sample of the number 7 and the size 1.
pub const SAMPLE_REPORT: &str =
    "19 summary reached 4 of 8 milestones 1 bits 0 tables 0 done 3 undone 0\n36 summary reached 4 of 8 milestones 1 bits 0 tables 0 done 3 undone 0\n53 summary reached 4 of 8 milestones 1 bits 0 tables 0 done 3 undone 0\n70 summary reached 4 of 8 milestones 1 bits 0 tables 0 done 3 undone 0\n87 summary reached 4 of 8 milestones 1 bits 0 tables 0 done 3 undone 0\n104 summary reached 4 of 8 milestones 1 bits 0 tables 0 done 3 undone 0\n121 summary reached 4 of 8 milestones 1 bits 0 tables 0 done 3 undone 0\n138 summary reached 4 of 8 milestones 1 bits 0 tables 0 done 3 undone 0\n144 plan t cost 1\n  row r1 rate 1 machines 1/2 count 1 power 0 drain 0 beacons 0 pollution 0\n  import item:i0 1\n  price item:i0 1\n  price item:i1 1\n  total power 0 drain 0 beacons 0 pollution 0\n145 summary reached 6 of 8 milestones 1 bits 2 tables 1 done 6 undone 0\n";
