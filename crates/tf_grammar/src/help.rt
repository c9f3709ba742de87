//! What `--help` says at its end, where `-h` is shorter.

/// Of the program.
pub(crate) const OF_ALL: &str = "\
A job table is a text. Its first line is \"table 1\"; then comes a line for each
job, with its processing time p, and with a due date d, a weight w, a release
date r, or a cost function h of its completion time:

    table 1
    job 1 p=4 d=9 w=2
    job 2 p=1,3 r=5
    job 3 p=2 h=0,6:5
    prec 1 2

\"p=1,3\" has the times on the two machines of a shop, \"h=0,6:5\" costs 0, and 5
from time 6 on, and \"prec 1 2\" says that job 2 starts after job 1 is completed.
Times are whole numbers of time steps, of whatever length.

A problem is written machines|conditions|objective, in quotes: \"1||sumwC\" is one
machine and the total weighted completion time, \"P2|prmp|Cmax\" two machines in
parallel with preemption and the makespan. \"threefield problems\" lists those
that are solved, and what each needs.

First steps: threefield solve -p \"1||Lmax\" TABLE > answer.txt
             threefield gantt answer.txt
             threefield check -p \"1||Lmax\" TABLE answer.txt
             threefield trace -p \"1||Lmax\" TABLE
             threefield plan -p \"1||sumwT\" TABLE

threefield COMMAND --help has more of each command.

Exit status: 0 done, 1 rejected, 2 refused, 3 want of memory,
             4 a file or a device failed, 5 the command line is wrong,
             6 a schedule that is not proved optimal.";

/// Of `solve`.
pub(crate) const OF_SOLVE: &str = "\
Prints an answer: its problem, its value, the pieces of an optimal schedule as
\"piece JOB MACHINE START STOP\", and a certificate, from which \"check\" sees that
no schedule costs less. It is proved that the schedule fits and is optimal.

--index A-B and --index all print a line for each of several instances of a
weighted tardiness file, or of a flow shop file where no --name is given; with
--values its minimum cost alone.

Example: threefield solve -p \"P2|prmp|Cmax\" examples/table.txt
         threefield solve -p \"1||sumwC\" -f wt --jobs 40 --index 3 wt40.txt
         threefield solve -p \"F2||Cmax\" -f flow --name demo --pair 0,2 shop.txt
         threefield solve -p \"1||Lmax\" --csv table.txt > plan.csv
         threefield solve -p \"1||sumwC\" -f wt --jobs 40 --index all wt40.txt

Formats: table  a job table (threefield --help)
         wt     the weighted tardiness files of OR-Library
         flow   the flow shop files of OR-Library
         jobshop  their job shop files, for \"bound\", \"plan\" and \"evaluate\"

A problem without a solver is refused: \"plan\" prints a schedule for many of them,
and how far it can be from an optimal one.

Exit status: 0 answered, 2 refused, 3 want of memory,
             4 a file or a device failed, 5 the command line is wrong.";

/// Of `plan`.
pub(crate) const OF_PLAN: &str = "\
Prints a schedule for a problem without a solver, and how good it is. It takes
what \"bound\" takes. It is proved that the schedule fits and has the printed
value, and that no schedule costs less than the lower bound. A problem with a
solver is solved as \"solve\" does it.

The schedule is an answer, which \"gantt\" draws and \"evaluate\" judges. Behind its
line \"end\" stand comments: \"## gap G\" says that the value is G above the lower
bound, so that 0 means optimal; then comes the text of the bound, each line
behind \"# \", for \"evaluate --bound\":

    threefield plan -p \"P2||Cmax\" table.txt > plan.txt
    sed -n \"s/^# //p\" plan.txt > bound.txt

The schedule is the best of several rules, improved by a search (iterated greedy
or simulated annealing). --steps lets the searches for schedule and bound take
more time, or less; about 1000 are usual.

Example: threefield plan -p \"1|prec|sumwT\" examples/workshop.txt
         threefield plan -p \"P3|prec|Cmax\" table.txt | threefield gantt
         threefield plan -p \"F3||sumC\" -f flow --name t01 shop.txt
         threefield plan -p \"J||Cmax\" -f jobshop --name ft06 jobs.txt

Exit status: 0 optimal, 2 refused, 3 want of memory,
             4 a file or a device failed, 5 the command line is wrong,
             6 planned, and not proved optimal.";

/// Of `bound`.
pub(crate) const OF_BOUND: &str = "\
Prints the strongest lower bound that is found for the cost of any schedule, and
a certificate of it. It is proved that no schedule that fits costs less. It
takes problems without a solver: one machine, machines in parallel, flow shops,
open shops and job shops, with the conditions rj, prec, prmp, prmu and nwt and any
of the objectives Cmax, Lmax, sumC, sumwC, sumT, sumwT, sumU and sumwU.

--index A-B and --index all print a line with the bound of each of several
instances of a weighted tardiness file, or of a flow shop or job shop file where
no --name is given.

Example: threefield bound -p \"P2||Cmax\" examples/table.txt
         threefield bound -p \"1||sumwT\" --steps 1000 -f wt --jobs 40 wt40.txt
         threefield bound -p \"1||sumwT\" -f wt --jobs 40 --index 1-125 wt40.txt
         threefield bound -p \"F||Cmax\" -f flow --name t01 examples/taillard.txt
         threefield bound -p \"F||Cmax\" -f flow --index all flowshop1.txt

Exit status: 0 bounded, 2 refused, 3 want of memory,
             4 a file or a device failed, 5 the command line is wrong.";

/// Of `trace`.
pub(crate) const OF_TRACE: &str = "\
Shows the steps of the method by which the problem is solved, as on a
blackboard: tables of jobs, the order in which they are taken, the schedule, and
the argument of the certificate. --tex writes the same for LaTeX.

Example: threefield trace -p \"F2||Cmax\" -f flow --name demo --pair 0,2 shop.txt
         threefield trace -p \"1||sumwC\" --tex table.txt > smith.tex

Exit status: 0 traced, 2 refused, 3 want of memory,
             4 a file or a device failed, 5 the command line is wrong.";

/// Of `check`.
pub(crate) const OF_CHECK: &str = "\
Judges anybody's answer by its certificate, without solving the problem.
\"accepted\" is proved to mean: the schedule fits, costs what the answer says, and
is optimal.

Example: threefield check -p \"P2|prmp|Cmax\" examples/table.txt answer.txt
         threefield check -p \"1||sumC\" table.txt - < answer.txt

Exit status: 0 accepted, 1 rejected, 2 refused, 3 want of memory,
             4 a file or a device failed, 5 the command line is wrong.";

/// Of `evaluate`.
pub(crate) const OF_EVALUATE: &str = "\
Prints how good a schedule is: whether it fits, its value, the minimum cost or a
lower bound, the gap, and when each job starts and is completed.

The schedule is an answer, whose certificate need not show anything; with
--schedule the lines \"piece JOB MACHINE START STOP\" of a file, which need no
other lines; with --order that of jobs one after another as early as possible, in
a job shop also of operations, each by its job (\"1 2 2 1\"); with --rule that of
the order of a rule: EDD (earliest due date first), SPT (shortest time first), LPT
(longest time first), WSPT (largest ratio of weight to time first) or ERD (earliest
release date first), on machines in parallel each job on the machine that is free
first; with --orders that of each line of a file, for which one line is printed,
with its cost and its gap; with --grade also where a line is no order, and a line
may begin with a label, as in \"anna: 3,1,2\".

--bound takes a lower bound as \"bound\" prints it, or one of your own. It is
judged, and used where it is stronger than the one that is found. --steps lets
the search for that one take more time, or less.

--index A-B and --index all evaluate the answers of ANSWER, one after another,
by as many instances of a weighted tardiness file, or of a flow shop or job shop
file where no --name is given, and print a line for each; with --orders the order
in each line, with --rule that of the rule, and with --bound beside the bounds of
its file, one after another.

Example: threefield evaluate -p \"P2|prmp|Cmax\" examples/table.txt answer.txt
         threefield evaluate -p \"1||sumC\" --certificate table.txt answer.txt
         threefield evaluate -p \"1||sumC\" --order \"2 1 3\" table.txt
         threefield evaluate -p \"P2||sumC\" --order \"2 1 / 3\" table.txt
         threefield evaluate -p \"1||sumU\" --rule EDD table.txt
         threefield evaluate -p \"1||sumwT\" --orders orders.txt table.txt
         threefield evaluate -p \"1|rj|Lmax\" --schedule pieces.txt table.txt
         threefield evaluate -p \"P2||Cmax\" --bound b.txt table.txt answer.txt
         threefield evaluate -p \"1||Lmax\" --measures table.txt answer.txt
         threefield evaluate -p \"1||sumwT\" -f wt --jobs 40 --index all wt.txt -
         threefield evaluate -p \"1||sumwT\" --steps 1000 table.txt answer.txt

Exit status: 0 best, 1 does not fit, 2 refused, 3 want of memory,
             4 a file or a device failed, 5 the command line is wrong,
             6 fits, and is not proved optimal.";
