//! The text of help, a page for each command, and the version: the one table of them.

/// What `--version` prints.
pub const VERSION: &str = "robin 3.1.9\n";

/// What `--help` prints: all commands with their words, the options and the statuses.
pub const ALL: &str = "\
robin makes and judges seasons of sports leagues in which each two teams meet
twice, once at home and once away. Its files have the RobinX form (XML).

usage: robin COMMAND WORDS [OPTIONS]
       robin COMMAND --help    what one command does, with an example
       robin --help
       robin --version

  validate INSTANCE SOLUTION     judge a season by the demands of its league
  show INSTANCE SOLUTION         show a season, and what it misses by its games
  solve INSTANCE                 find a season, or prove that there is none
  patterns INSTANCE              find home-away patterns, or prove none exist
  explain INSTANCE               name demands that contradict each other
  part INSTANCE LIST             write the league of some of its demands
  check INSTANCE LOG             check a proof that there is no season
  prove INSTANCE SOLUTION        find a better season, or prove there is none
  bound INSTANCE LOG             check such a proof
  resume INSTANCE SOLUTION K     plan the rest of a season after K slots
  audit INSTANCE SOLUTION K LOG  check a proof that it can't be resumed
  rows INSTANCE                  write the league as sums for other solvers
  values INSTANCE VALUES         write the season that a solver's values say
  circle N                       write a season for N teams
  make N SEED                    write a league of N teams to try things on
  trial N SEED                   make such a league and solve it

INSTANCE is the file of a league, SOLUTION that of a season, LOG that of a
proof, VALUES what a solver prints. A file's name doesn't begin with -. Teams
are even in number, 2 to 40.

Options stand before, between or behind the words, each once at most:
  --conflicts N|all  clauses that a search may learn, or any number (2000);
                     of solve, patterns, explain, prove, resume and trial
  --moves N          moves to better seasons (40000); of solve and trial
  --tries N          tries, from 1 to 100 (1); of solve and trial
  --patterns N       clauses of a search for patterns (500); of solve and trial
  --seed N           what random moves are drawn by (0); of solve and trial
  --seconds N        a limit of N seconds; of solve, trial, explain, prove and
                     resume
  --from SOLUTION    a season to begin at; of solve
  --near             few games to come change; of resume, with options of trial
  --room N           a log's steps take N megabytes at most; of check, bound
                     and audit
  --bound B          seasons that cost at most B; of rows
  --floor B          that no season costs less than B; of prove
  --objective        a season that costs least; of rows, and not with --bound
  --form text|csv    a text, or values for a spreadsheet (text); of show
  --most N|all       lines of a list (20); of show
  --width N          characters of a line of the grid (80); of show
  --demands [LIST]   in place of SOLUTION: what a league demands; of show
With every command:
  --out FILE         the answer goes into FILE, whole or not at all; of solve
                     the best season so far too, once a second
  --log FILE         a log of status 4 or 5 goes into FILE
  --quiet            nothing is told of how a run goes
A file's name - is standard input, once at most.

Status:  0  accepted, found, proved or made     1  not accepted
         2  the words are no command
         3  a file is refused, or its league is too large, or a number of LIST
            or K is none of its league
         4  it is proved that there is none, or demands that contradict each
            other are named
         5  a budget is spent                   6  a file can't be read
         7  the text can't be written           8  memory or room ran out
         9  a better season is found           10  the words can't be read
";

/// The commands by name, for who misspelt one.
pub const NAMES: &str = "\
commands: validate show solve patterns explain part check prove bound resume
          audit rows values circle make trial
          robin --help says what they do
";

pub const VALIDATE: &str = "\
usage: robin validate INSTANCE SOLUTION

Judges the season of the file SOLUTION by the league of the file INSTANCE: by
how much it misses each demand, what that costs, and whether it is accepted.

Status:  0  the season is accepted: it is a double round robin, and meets each
            hard demand
         1  it isn't accepted, and the report says why
         3  a file is refused
         6  a file can't be read
         7  the text can't be written
         8  memory ran out

Example: robin validate league.xml season.xml
";

pub const SHOW: &str = "\
usage: robin show INSTANCE SOLUTION [OPTIONS]
       robin show INSTANCE --demands [LIST]

Shows the season of the file SOLUTION, with the names of the file INSTANCE, as a
grid of teams by slots, and says in words what it lacks of a double round robin
and which demands it misses: by how much, and by which games. Hard demands come
first, then what costs more. The last lines are those of validate.

Options stand before, between or behind the words, each once at most:
  --most N|all     the most demands, and the most lines of each, a number from 0
                   to 4294967295 (20); all: no limit
  --width N        the most characters of a line of the grid, or of one slot, if
                   that is wider, from 0 to 4294967295 (80)
  --form text|csv  a text, or a line a game for a spreadsheet (text)

With --demands behind INSTANCE it says in words what the league demands, a line
a demand, the hard ones first. LIST has the numbers of some, as for part.

Status:  0  the season is accepted: it is a double round robin, and meets each
            hard demand; or the demands are written
         1  it isn't accepted
         3  a file is refused, or the league has no demand of a number of LIST
         6  a file can't be read
         7  the text can't be written
         8  memory ran out

Example: robin show league.xml season.xml --most 5
         robin show league.xml --demands '1;10'
";

pub const SOLVE: &str = "\
usage: robin solve INSTANCE [OPTIONS]

Finds a season that the league of the file INSTANCE accepts, and goes on to
better ones by moves; or writes a log that proves that there is no season.

Use --seconds first: tries go on until then, and the best season is written.
Options stand before or behind the file, each once at most:
  --seconds N    after N seconds the run ends, and the best season is written.
                 Without --tries, tries go on until then
  --conflicts N  each search learns at most N clauses (2000); all in place of
                 N: any number
  --moves N      at most N moves lead to better seasons, and a walk tries at
                 most 100 for each of them, or later more where --seconds
                 stands without --tries; 0: no walk, no moves (40000)
  --tries N      makes N tries and keeps the best season, 1 to 100 (1)
  --patterns N   where the league doesn't accept the season of circle, a search
                 for patterns comes first, which learns at most N clauses (500)
  --seed N       random moves are drawn by N (0)
  --from SOLUTION
                 each try walks from the season of this file; if the league
                 accepts that, the season that is written costs no more
N is a number from 0 to 18446744073709551615, where nothing else is said.
Where ./robin started it, Ctrl-C ends it as a time limit does, and a second one
changes nothing; Ctrl-\\ ends it at once, and nothing is written.

Status:  0  a season is found, and written with its objective
         1  the season of --from isn't a double round robin of the league, and
            is judged as by validate
         3  a file is refused, or the league is too large
         4  there is no season: the log proves it
         5  a budget or the time is spent: the log says what was learnt
         6  a file can't be read
         7  the text can't be written
         8  memory ran out

Example: robin solve league.xml --tries 4 > season.xml
";

pub const PATTERNS: &str = "\
usage: robin patterns INSTANCE [--conflicts N|all]

Finds home-away patterns that meet all that the league of the file INSTANCE
demands without naming a game: a line for each team, with H or A for each slot.
Or writes a log that proves that there are none, and so no season.

Options stand before or behind the file, each once at most:
  --conflicts N  the search learns at most N clauses (2000), a number from 0 to
                 18446744073709551615; all in place of N: any number

Status:  0  patterns are found, and written
         3  the file is refused, or its league is too large
         4  there are none, and no season: the log proves it
         5  the budget is spent: the log says what was learnt
         6  the file can't be read
         7  the text can't be written
         8  memory ran out

Example: robin patterns league.xml --conflicts all
";

pub const EXPLAIN: &str = "\
usage: robin explain INSTANCE [--conflicts N|all] [--seconds N]

Names hard demands of the file INSTANCE that contradict each other, by their
numbers in file order from 1, with a log that proves it, and for each of them a
season that meets the others, unless its search was spent. Or finds a season.

Options stand before or behind the file, each once at most:
  --conflicts N  each search learns at most N clauses (2000), a number from 0
                 to 18446744073709551615; all in place of N: any number
  --seconds N    after N seconds the searches end, as if their budget were
                 spent; demands that are left to try stay undecided
Where ./robin started it, Ctrl-C ends it as a time limit does; Ctrl-\\ ends it
at once.

Status:  0  a season is found, and written with its objective
         3  the file is refused, or its league is too large
         4  demands that contradict each other are named
         5  the budget is spent: the log says what was learnt
         6  the file can't be read
         7  the text can't be written
         8  memory ran out

Example: robin explain league.xml > why.txt
";

pub const PART: &str = "\
usage: robin part INSTANCE LIST

Writes the league of some hard demands of the file INSTANCE as an instance
file. LIST has their numbers, in file order from 1 with the soft demands
counted: each above the one before it, at most 4294967295, joined by ; with
nothing between. A shell wants it quoted.

Status:  0  the league is written
         3  the file is refused, or a number is no hard demand's
         6  the file can't be read
         7  the text can't be written
         8  memory ran out

Example: robin part league.xml '2;7' > part.xml
";

pub const CHECK: &str = "\
usage: robin check INSTANCE LOG [--room N]

Checks the log of the file LOG, which says that the league of the file INSTANCE
has no season. Nothing is searched.

The option stands before, between or behind the files, once at most:
  --room N   megabytes that the log's steps may take (no limit), a number from 0
             to 18446744073709551615

Status:  0  the log is accepted: there is no season
         1  it is rejected, at the step that is named
         3  a file is refused, or the league is too large
         6  a file can't be read
         7  the text can't be written
         8  memory ran out, or the steps take more than --room allows

Example: robin check league.xml found.log
";

pub const PROVE: &str = "\
usage: robin prove INSTANCE SOLUTION [--floor B] [--conflicts N|all]
                   [--seconds N]

Finds a season of the league of the file INSTANCE that costs less than the
season of the file SOLUTION, or writes a certificate that none does.

Options stand before, between or behind the files, each once at most:
  --floor B      finds a season that costs less than B, or proves that none
                 does; above the cost of SOLUTION the same as that cost
  --conflicts N  the search learns at most N clauses (2000), a number from 0 to
                 18446744073709551615; all in place of N: any number
  --seconds N    after N seconds the search ends, as if its budget were spent
Where ./robin started it, Ctrl-C ends it as a time limit does; Ctrl-\\ ends it
at once.

Status:  0  no accepted season costs less: the certificate proves it; with
            --floor the season's objective stands before it
         1  the season isn't accepted, and the report says why
         3  a file is refused, or the league is too large
         5  the budget is spent: the season's objective, the certificate of
            a floor (none costs less than that), and the log of what was learnt
         6  a file can't be read
         7  the text can't be written
         8  memory ran out
         9  a better season is found, and written

Example: robin prove league.xml season.xml > least.log
";

pub const BOUND: &str = "\
usage: robin bound INSTANCE LOG [--room N]

Checks the certificate of the file LOG, which says that no season of the league
of the file INSTANCE costs less than a number. Nothing is searched.

The option stands before, between or behind the files, once at most:
  --room N   megabytes that the log's steps may take (no limit), a number from 0
             to 18446744073709551615

Status:  0  the certificate is accepted, and its number printed
         1  it is rejected, at the step that is named
         3  a file is refused, or the league is too large
         6  a file can't be read
         7  the text can't be written
         8  memory ran out, or the steps take more than --room allows

Example: robin bound league.xml least.log
";

pub const RESUME: &str = "\
usage: robin resume INSTANCE SOLUTION K [--conflicts N|all] [--seconds N]
       robin resume INSTANCE SOLUTION K --near [OPTIONS OF TRIAL]

Plans the rest of a season of which the first K slots were played: finds a
season that the league of the file INSTANCE accepts and that has, in these
slots, the games of the file SOLUTION. Or writes a log that proves that there is
none. K is a number from 0 to 18446744073709551615.

Options stand before, between or behind the words, each once at most:
  --conflicts N  the search learns at most N clauses (2000), a number from 0 to
                 18446744073709551615; all in place of N: any number
  --seconds N    after N seconds the search ends, as if its budget were spent
Where ./robin started it, Ctrl-C ends it as a time limit does; Ctrl-\\ ends it
at once.

With --near it looks for a season that changes few of the games to come, by
searches and walks from SOLUTION, and says behind it how many: changed=20
of=28. Then --moves, --tries, --patterns and --seed may stand too, as of solve
--from; and with --seconds but no --tries, walks go on until then.

Status:  0  a season is found, and written with its objective
         3  a file is refused, or the league is too large, or the season has
            fewer than K slots
         4  there is no such season: the log proves it
         5  the budget is spent: the log says what was learnt
         6  a file can't be read
         7  the text can't be written
         8  memory ran out

Example: robin resume league.xml season.xml 18 --near > new-season.xml
";

pub const AUDIT: &str = "\
usage: robin audit INSTANCE SOLUTION K LOG [--room N]

Checks the log of the file LOG, which says that no season that the league of
the file INSTANCE accepts has the games of the file SOLUTION in the first K
slots. Nothing is searched. K is a number from 0 to 18446744073709551615.

The option stands before, between or behind the words, once at most:
  --room N   megabytes that the log's steps may take (no limit), a number from 0
             to 18446744073709551615

Status:  0  the log is accepted: there is no such season
         1  it is rejected, at the step that is named
         3  a file is refused, or the league is too large, or the season has
            fewer than K slots
         6  a file can't be read
         7  the text can't be written
         8  memory ran out, or the steps take more than --room allows

Example: robin audit league.xml season.xml 18 none.log
";

pub const ROWS: &str = "\
usage: robin rows INSTANCE [--bound B | --objective]

Writes the rows of the league of the file INSTANCE as a text in OPB, the format
of the pseudo-Boolean competitions, in the order and with the numbers that logs
use. Where a solver finds values that satisfy them, the command values writes
the season that they say; where there are none, the league accepts no such one.

One option may stand before or behind the file:
  --bound B    the rows of a season that costs at most B, a number from 0 to
               18446744073709551615, as certificates use them
  --objective  these rows without a bound, and what the season costs as a sum
               that is to be least

Status:  0  the rows are written
         3  the file is refused, or the league is too large
         6  the file can't be read
         7  the text can't be written
         8  memory ran out

Example: robin rows league.xml > league.opb
";

pub const VALUES: &str = "\
usage: robin values INSTANCE VALUES

Writes the season that the values of the file VALUES say, where they satisfy
the rows of the league of the file INSTANCE. The file is what a solver prints:
words x7 or 7 are true variables, -x7 or -7 false ones, with or without v in
front of a line; lines that begin with c, o or s are passed over.

Status:  0  the season is written with its objective, and is accepted
         1  a row isn't satisfied, and the first such is named
         3  a file is refused, or the league is too large
         6  a file can't be read
         7  the text can't be written
         8  memory ran out

Example: robin values league.xml values.txt > season.xml
";

pub const CIRCLE: &str = "\
usage: robin circle N

Writes the season of the circle method for N teams, N even and from 2 to 40:
each two teams meet once in each half, with the fewest breaks in each half.

Status:  0  the season is written
         7  the text can't be written
         8  memory ran out

Example: robin circle 16 > season.xml
";

pub const MAKE: &str = "\
usage: robin make N SEED

Writes a league to try things on: of N teams, N even and from 2 to 40, with
N + 17 demands that are drawn by SEED, a number from 0 to 18446744073709551615.
It accepts the season that circle writes.

Status:  0  the league is written
         7  the text can't be written
         8  memory ran out

Example: robin make 16 7 > league.xml
";

pub const TRIAL: &str = "\
usage: robin trial N SEED [OPTIONS]

Makes the league that make writes, and solves it: seven lines say in short what
is found, and behind them stands what solve writes. N is even, from 2 to 40,
and SEED a number from 0 to 18446744073709551615. The options are those of
solve: --seconds, --conflicts, --moves, --tries, --patterns and --seed.

Status:  0  a season is found, and written
         3  the league is too large
         7  the text can't be written
         8  memory ran out

Example: robin trial 8 7 --moves 1000
";
